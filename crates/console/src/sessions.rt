// Sessions as a conversation steers them.
use crate::steered::Steered;
use crate::tables::{Registers, Row, Table};
use command::code::Instr;
use session::debugger::{Refusal, Session};
use std::alloc::Global;
use std::io;
use target::processor::Processor;

impl<P: Processor> Steered for Session<P> {
    type Refusal = Refusal;

    fn load(&mut self, _heap: Global, program: &[Instr]) -> Result<(), Refusal> {
        Session::load(self, program)
    }

    fn give(&mut self, _heap: Global, more: &[u32]) -> Result<(), Refusal> {
        Session::give(self, more)
    }

    fn forward(&mut self, _heap: Global, n: u64) -> Result<u64, Refusal> {
        Session::forward(self, n)
    }

    fn show_place(&mut self, rt: &HostRuntime) -> io::Result<()> {
        rt.println(self.place())
    }

    fn show_registers(&mut self, rt: &HostRuntime) -> io::Result<()> {
        rt.println(Registers(&self.registers()))
    }

    fn show_words(&mut self, rt: &HostRuntime, from: u64, count: u64) -> io::Result<()> {
        match self.words(rt.alloc(), from, count) {
            Ok(words) => rt.println(Table {
                from,
                words: words.as_slice(),
            }),
            Err(refusal) => rt.println(refusal),
        }
    }

    fn show_outs(&mut self, rt: &HostRuntime, from: u64, count: u64) -> io::Result<()> {
        match self.outs(rt.alloc(), from, count) {
            Ok(outs) => rt.println(Row(outs.as_slice())),
            Err(refusal) => rt.println(refusal),
        }
    }

    fn show_not_loaded(
        &mut self,
        rt: &HostRuntime,
        name: &str,
        refusal: Refusal,
    ) -> io::Result<()> {
        println!(rt; "{name}: {refusal}")
    }

    // Where the processor fails, the session stays where it came to.
    fn show_not_gone(&mut self, rt: &HostRuntime, refusal: Refusal) -> io::Result<()> {
        rt.println(refusal)?;
        self.show_place(rt)
    }
}
