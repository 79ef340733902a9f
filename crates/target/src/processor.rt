// A processor as the debugger sees it: it begins, takes in, goes on, keeps its state and takes it up again, and tells what it is asked.
ghost use Rattle.std.specs.Prelude.{ℕ};
ghost use Rattle.target.specs.Run.{Target};
ghost use Rattle.target.specs.Acts.{Begins, Feeds, Goes, Wanting, Keeps, TakesUp, TellsRegs, TellsWords, TellsOuts, TellsSpot};

use crate::answers::{Came, Fault, Spot};
use command::breaks::Break;
use command::code::Instr;

// What each method does is said of every target of the definitions that the processor is `like`. `room` is how many numbers more are sure
// to have room to go out.
pub trait Processor {
    ghost like: { Self → Target → Type 0 };

    ghost room: { Self → ℕ };

    // Begins anew with a program, with nothing kept and nothing come in.
    fn begin(&mut self, program: &[Instr]) -> Result<(), Fault>
        ensures { Begins program.now (like self.old) (like self.new) (room self.new) result };

    // So much more comes in, after all that did.
    fn feed(&mut self, more: &[u32]) -> Result<(), Fault>
        ensures { Feeds more.now (like self.old) (like self.new) result };

    // Goes on by at most `n` steps, till a break holds or there is no step.
    fn goes(&mut self, n: u64, breaks: &[Break]) -> Result<Came, Fault>
        ensures goes { Goes n breaks.now (room self.old) (like self.old) (like self.new) result }
        ensures wanting { Wanting n (room self.new) (like self.old) result };

    // Keeps the state in a slot.
    fn keep(&mut self, slot: u64) -> Result<(), Fault>
        ensures { Keeps slot (like self.old) (like self.new) result };

    // Takes up the state that was kept in a slot; what has come in stays.
    fn take_up(&mut self, slot: u64) -> Result<(), Fault>
        ensures { TakesUp slot (like self.old) (like self.new) result };

    fn registers(&self) -> [u32; 16]
        ensures { TellsRegs (like self.now) result };

    // Fills `seen` with the words from there on; past the last word they are 0.
    fn words(&self, from: u64, seen: &mut [u64]) -> Result<(), Fault>
        ensures { TellsWords from seen.old seen.new (like self.now) result };

    // Puts what went out, from the given one on, into `seen`, as much as there is room and is there, and answers how much that is.
    fn outs(&self, from: u64, seen: &mut [u64]) -> Result<usize, Fault>
        ensures { TellsOuts from seen.old seen.new (like self.now) result };

    // Where it is.
    fn spot(&self) -> Spot
        ensures { TellsSpot (like self.now) result };
}
