// The debugger on a processor: what is said to it, and what it answers.
ghost use Rattle.std.specs.Prelude.{◌≡◌, ℕ, suc, Bool, [], length, IfOk, vec_len};
ghost use Rattle.command.specs.Plain.{Command, Plain, core};
ghost use Rattle.target.specs.Run.{Target, fresh_target};
ghost use Rattle.machine.specs.Promise.{first_plain};
ghost use Rattle.driver.specs.Screens.{showed, seen_on};
ghost use Rattle.driver.specs.Says.{answer_of, Went, Stands, Answered};

use crate::acts::{MOST, carry};
use crate::event::{Ending, Event, tell};
use crate::refusal::{Refusal, SayError};
use crate::screen::Screen;
use machine::{CELLS, ROW};
use std::alloc::{AllocError, Global};
use target::processor::Processor;

#[derive(Drop)]
pub struct Debugger<P> {
    processor: P,
    memory: Vec<u64>,
    // What a step hands over.
    row: Vec<u64>,
    screen: Screen,
    ghost cells: { vec_len memory ≡ 32000 },
    ghost wide: { vec_len row ≡ 65536 },
}

// What a command that made so many steps is answered.
fn answer(ending: Ending, steps: u64) -> Result<u64, SayError>
    ensures { result ≡ answer_of ending steps }
{
    match ending {
        Ending::Done => Ok(steps),
        Ending::Refused(why) => Err(SayError::Refused { why, steps }),
        Ending::ShownTwice => Err(SayError::Refused {
            why: Refusal::Never,
            steps,
        }),
        Ending::NoMemory => Err(SayError::NoMemory),
    }
}

// A row, by its length: lent mutably as an array, its Vec's length would not be proved to stay.
fn whole(row: &[u64]) -> &[u64; ROW]
    requires { length row.now ≡ 65536 }
    ensures { result.now ≡ row.now }
{
    row.as_array().unwrap()
}

// Turn after turn: an event, a step, and its act. Memory and row are slices, as the machine's `step` takes them.
fn carry_out<P: Processor>(
    p: &mut P,
    memory: &mut [u64],
    screen: &mut Screen,
    text: &[u64],
    row: &mut [u64],
) -> Result<u64, SayError>
    requires cells { length memory.old ≡ 32000 }
    requires wide { length row.old ≡ 65536 }
    ensures { Went (P.like p.old) memory.old (showed screen.old.shown screen.old.text.items) text.now result (P.room p.new) (P.like p.new) memory.new (showed screen.new.shown screen.new.text.items) }
{
    let mut seen = [0; MOST];
    let mut event = Event::Said;
    let mut steps: u64 = 0;
    for _ in 0..u64::MAX {
        let told = tell(memory, event, text, &seen, row);
        match carry(p, screen, told, whole(row), &mut seen) {
            Ok(next) => {
                steps = steps.wrapping_add(next.steps());
                event = next;
            }
            Err(ending) => return answer(ending, steps),
        }
    }
    Err(SayError::Refused {
        why: Refusal::Never,
        steps,
    })
}

impl<P: Processor + Drop> Debugger<P> {
    pub fn new(heap: Global, processor: P) -> Result<Debugger<P>, AllocError>
        ensures { IfOk result (λ d. (d.processor ≡ processor) × (P.like processor (fresh_target []) → Stands 4294967296 core (P.like processor) d.memory.items first_plain)) }
    {
        let memory = vec![in heap; 0; CELLS]?;
        let row = vec![in heap; 0; ROW]?;
        let screen = Screen::new(heap)?;
        Ok(Debugger {
            processor,
            memory,
            row,
            screen,
        })
    }

    // Something is said, in bytes, and the steps are answered that the processor made. From a session that stands for a plain debugger,
    // the answer is the plain debugger's, within the steps granted, and the session stands for that one.
    pub fn say(&mut self, text: &[u64]) -> Result<u64, SayError>
        ensures went { Went (P.like self.old.processor) self.old.memory.items [] text.now result (P.room self.new.processor) (P.like self.new.processor) self.new.memory.items (showed self.new.screen.shown self.new.screen.text.items) }
        ensures answered { (left : ℕ) (known : Command → Bool) (w : Plain) → Stands (suc left) known (P.like self.old.processor) self.old.memory.items w → Answered left known w text.now result (P.room self.new.processor) (P.like self.new.processor) self.new.memory.items (showed self.new.screen.shown self.new.screen.text.items) }
    {
        self.screen.clear();
        carry_out(
            &mut self.processor,
            self.memory.as_mut_slice(),
            &mut self.screen,
            text,
            self.row.as_mut_slice(),
        )
    }

    // What the last command showed, if anything.
    pub fn shown(&self) -> Option<&[u64]>
        ensures { seen_on result ≡ showed self.now.screen.shown self.now.screen.text.items }
    {
        self.screen.text()
    }
}
