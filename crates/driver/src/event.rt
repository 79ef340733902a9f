// What the debugger is told after an act, and the step that it takes.
ghost use Rattle.std.specs.Prelude.{◌≡◌, ◌≤◌, length};
ghost use Rattle.target.specs.Whys.{why_number};
ghost use Rattle.machine.specs.Engine.{own};
ghost use Rattle.machine.specs.Entry.{ActTold};
ghost use Rattle.driver.specs.Carried.{meant, steps_of, Sound};
ghost use Rattle.driver.specs.declared.event.Ending.TheVariants.{Refused};
ghost use Rattle.driver.specs.declared.refusal.Refusal.TheVariants.{Fault as AFault};

use crate::refusal::Refusal;
use machine::{Told, step};
use target::answers::{Came, Fault, Why};

#[derive(Clone, Copy, Debug, PartialEq, Eq)]
pub enum Event {
    // The command.
    Said,
    // How far the processor came.
    Came(Came),
    // So many numbers were looked at; they stand at the front of the array that all turns share.
    Saw(usize),
    // The last act is done.
    Next,
}

// Why no event comes of an act.
#[derive(Clone, Copy, Debug, PartialEq, Eq)]
pub enum Ending {
    // The command is done: an error too, since it ends the loop of turns, and `?` hands it on.
    Done,
    Refused(Refusal),
    // The processor has no memory for what may go out.
    NoMemory,
    // Something was shown before in this command.
    ShownTwice,
}

// An act cannot be.
pub const FAULT: Ending = Ending::Refused(Refusal::Fault);

impl From<Fault> for Ending {
    ghost from_gives = { λ _ ending. ending ≡ Refused AFault };

    fn from(_fault: Fault) -> Ending {
        FAULT
    }
}

impl Event {
    // The steps that the processor made.
    pub fn steps(self) -> u64
        ensures { result ≡ steps_of self }
    {
        match self {
            Event::Came(came) => came.by,
            _ => 0,
        }
    }
}

// 0 where it goes on.
pub fn number_of(why: Option<Why>) -> u64
    ensures { result ≡ why_number why }
{
    why.map_or(0, u64::from)
}

// The debugger is told an event: the command is `text`, and `seen` begins with what was looked at.
pub fn tell(memory: &mut [u64], event: Event, text: &[u64], seen: &[u64], row: &mut [u64]) -> Told
    requires cells { length memory.old ≡ 32000 }
    requires wide { 65536 ≤ length row.old }
    requires sound { Sound event (length seen.now) }
    ensures memory { memory.new ≡ (own.step memory.old (meant event text.now seen.now)).memory }
    ensures told { ActTold (own.step memory.old (meant event text.now seen.now)).act result row.old row.new }
{
    // The machine's entry takes its events by the numbers 0 to 3.
    match event {
        Event::Said => step(memory, 0, 0, 0, 0, text, row),
        Event::Came(came) => step(
            memory,
            1,
            came.by,
            u64::from(came.hit),
            number_of(came.why),
            &[],
            row,
        ),
        Event::Saw(count) => step(memory, 2, 0, 0, 0, &seen[..count], row),
        Event::Next => step(memory, 3, 0, 0, 0, &[], row),
    }
}
