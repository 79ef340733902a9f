// The commands: what each shows, how it ends, and how many steps it may make the processor do.
ghost use Rattle.std.specs.Prelude.{◌≡◌, ◌≤◌, [], ◌∷◌, IfOk};
ghost use Rattle.command.specs.Plain.{Plain, Turn as Ended, may_step, changer as change};
ghost use Rattle.command.specs.Told.{meant};
ghost use Rattle.trial.specs.Kept.{Kept};
ghost use Rattle.trial.specs.Turns.{reply_of, Answers, Turns};

use crate::debugger::Trial;
use command::commands::Order;
use std::alloc::{AllocError, Global};

// Why a command is refused.
#[derive(Clone, Copy, Debug, PartialEq, Eq)]
pub enum Refusal {
    // It is no command.
    NoCommand,
    // There is none of that number, or no such time.
    NoSuch,
    // There would be too many.
    Full,
}

// The row of numbers that a command showed, if it showed one, or why it is refused.
// It stands inside the `Result` of memory, and is not joined to it: a command that is refused is answered too, and leaves the debugger sound.
pub type Answer = Result<Option<Vec<u64>>, Refusal>;

#[derive(Drop)]
pub struct Turn {
    pub answer: Answer,
    // How many steps it may make the processor do.
    pub granted: u64,
}

impl Turn {
    // Of a command that makes no step.
    pub(crate) fn free(answer: Answer) -> Turn
        ensures answer { result.answer ≡ answer }
        ensures granted { result.granted ≡ 0 }
    {
        Turn { answer, granted: 0 }
    }
}

// For a command that went from one time to another, or was refused.
#[tactic(auto, using(crate::proofs::Turning::apart_is, crate::proofs::Turning::told_done), unfolding(command::specs::Plain::may_step))]
fn grant(order: Order, from: usize, to: usize, answer: &Answer) -> u64
    requires from { from ≤ 1099511627776 }
    requires to { to ≤ 1099511627776 }
    ensures { (w : Plain) (t : Ended) → w.now ≡ from → t.next.now ≡ to → t.reply ≡ reply_of answer.now → result ≡ may_step w (meant order) t }
{
    let apart = from.abs_diff(to) as u64;
    match order {
        Order::Forward(_) | Order::Run(_) => apart,
        Order::Back(_) => 4_096 + 16 * apart,
        Order::Rerun(_) => 4_096 + 32 * apart,
        Order::Changer(_) => {
            if answer.is_ok() {
                4_096 + 32 * apart
            } else {
                4_096 + 8 * from as u64
            }
        }
        _ => 0,
    }
}

impl Trial {
    // Carries out a command.
    pub fn turn(&mut self, heap: Global, order: Order) -> Result<Turn, AllocError>
        ensures { IfOk result (λ t. (w : Plain) → Kept self.old w → Turns t self.new w (meant order)) }
    {
        let from = self.now;
        let answer = self.answer(heap, order)?;
        let granted = grant(order, from, self.now, &answer);
        Ok(Turn { answer, granted })
    }

    fn answer(&mut self, heap: Global, order: Order) -> Result<Answer, AllocError>
        ensures { IfOk result (λ a. (w : Plain) → Kept self.old w → Answers a self.new w (meant order)) }
    {
        match order {
            Order::Forward(n) => {
                self.forward(n)?;
                Ok(Ok(Some(self.time_row(heap)?)))
            }
            Order::Back(n) => {
                self.back(n);
                Ok(Ok(Some(self.time_row(heap)?)))
            }
            Order::Run(n) => {
                self.run(n)?;
                Ok(Ok(Some(self.time_row(heap)?)))
            }
            Order::Rerun(n) => {
                self.rerun(n);
                Ok(Ok(Some(self.time_row(heap)?)))
            }
            Order::Changer(a) => self.changer(heap, a),
            Order::Break(stop) => self.add_break(heap, stop),
            Order::Drop(number) => Ok(self.drop_break(number)),
            Order::Where => Ok(Ok(Some(self.stands(heap)?))),
            Order::Registers => Ok(Ok(Some(self.registers(heap)?))),
            Order::Words { from, count } => Ok(Ok(Some(self.words_from(heap, from, count)?))),
            Order::Outs { from, count } => Ok(Ok(Some(self.outs_from(heap, from, count)?))),
        }
    }

    fn time_row(&self, heap: Global) -> Result<Vec<u64>, AllocError>
        ensures { IfOk result (λ row. row.items ≡ self.entry.now.now ∷ []) }
    {
        Ok(vec![in heap; self.now as u64]?)
    }

    fn changer(&mut self, heap: Global, place: u64) -> Result<Answer, AllocError>
        ensures { IfOk result (λ a. (w : Plain) → Kept self.old w → Answers a self.new w (change place)) }
    {
        let Some(steps) = self.since_change(place) else {
            return Ok(Err(Refusal::NoSuch));
        };
        self.back(steps as u64);
        Ok(Ok(Some(self.time_row(heap)?)))
    }
}
