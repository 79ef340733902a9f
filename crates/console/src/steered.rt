// What a conversation steers: a session, or another debugger.
use command::code::Instr;
use std::alloc::{AllocError, Global};
use std::{fmt, io};

pub trait Steered {
    // Why it did not do what it was told.
    type Refusal: fmt::Display + From<AllocError> + Drop;

    // Begins anew with a program.
    fn load(&mut self, heap: Global, program: &[Instr]) -> Result<(), Self::Refusal>;

    // So much more comes in.
    fn give(&mut self, heap: Global, more: &[u32]) -> Result<(), Self::Refusal>;

    // Goes on by at most `n` steps, as far as it goes, and answers by how many.
    fn forward(&mut self, heap: Global, n: u64) -> Result<u64, Self::Refusal>;

    fn show_place(&mut self, rt: &HostRuntime) -> io::Result<()>;

    fn show_registers(&mut self, rt: &HostRuntime) -> io::Result<()>;

    // Words, from an address on, and how many.
    fn show_words(&mut self, rt: &HostRuntime, from: u64, count: u64) -> io::Result<()>;

    // What went out, from the given one on, and how much.
    fn show_outs(&mut self, rt: &HostRuntime, from: u64, count: u64) -> io::Result<()>;

    // Says why it did not begin with the program of a file.
    fn show_not_loaded(
        &mut self,
        rt: &HostRuntime,
        _name: &str,
        refusal: Self::Refusal,
    ) -> io::Result<()> {
        rt.println(refusal)
    }

    // Says why it did not go on.
    fn show_not_gone(&mut self, rt: &HostRuntime, refusal: Self::Refusal) -> io::Result<()> {
        rt.println(refusal)
    }
}
