// Breaks set and dropped.
ghost use Rattle.std.specs.Prelude.{◌≡◌, ◌≤◌, not, IfOk, vec_len, ◌==◌, nat_eq};
ghost use Rattle.command.specs.Machine.{any, each, those};
ghost use Rattle.command.specs.Plain.{Plain, add_break, drop_break};
ghost use Rattle.command.specs.Breaks.{break_of};
ghost use Rattle.trial.specs.Kept.{Kept, break_numbered};
ghost use Rattle.trial.specs.Turns.{Answers};

use crate::debugger::{Numbered, Trial};
use crate::turns::{Answer, Refusal};
use command::breaks::Break;
use std::alloc::{AllocError, Global};

const MOST_BREAKS: usize = 64;

fn has(breaks: &[Numbered], number: u64) -> bool
    ensures { result ≡ any (λ b. nat_eq b.id number) (each break_numbered breaks.now) }
{
    breaks.iter().any(|b| b.number == number)
}

fn remove(breaks: &mut Vec<Numbered>, number: u64)
    ensures fewer { vec_len breaks.new ≤ vec_len breaks.old }
    ensures rest { each break_numbered breaks.new.items ≡ those (λ b. not (b.id == number)) (each break_numbered breaks.old.items) }
{
    breaks.retain(|b| b.number != number);
}

impl Trial {
    pub(crate) fn add_break(&mut self, heap: Global, stop: Break) -> Result<Answer, AllocError>
        ensures { IfOk result (λ a. (w : Plain) → Kept self.old w → Answers a self.new w (add_break (break_of stop))) }
    {
        if self.breaks.len() >= MOST_BREAKS {
            return Ok(Err(Refusal::Full));
        }
        let number = self.next;
        // No run of the program comes to a number past the last of 64 bits.
        let next = number.checked_add(1).ok_or(AllocError)?;
        let row = vec![in heap; number]?;
        self.breaks.push(Numbered { number, stop })?;
        self.next = next;
        Ok(Ok(Some(row)))
    }

    pub(crate) fn drop_break(&mut self, number: u64) -> Answer
        ensures { (w : Plain) → Kept self.old w → Answers result self.new w (drop_break number) }
    {
        if !has(self.breaks.as_slice(), number) {
            return Err(Refusal::NoSuch);
        }
        remove(&mut self.breaks, number);
        Ok(None)
    }
}
