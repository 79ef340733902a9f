// What is shown of a state, as rows of numbers.
ghost use Rattle.std.specs.Prelude.{◌≡◌, suc, [], ◌∷◌, take, drop, IfOk};
ghost use Rattle.std.specs.List.{filter_map};
ghost use Rattle.command.specs.Machine.{eight, flat};
ghost use Rattle.command.specs.Plain.{Plain, at_time, status_number, words_shown};
ghost use Rattle.trial.specs.Kept.{Kept};

use crate::debugger::Trial;
use crate::moments::Moment;
use std::alloc::{AllocError, Global};

// What the steps put out, from the given one on, at most so many.
fn outs(past: &[Moment], heap: Global, from: usize, count: usize) -> Result<Vec<u64>, AllocError>
    ensures { IfOk result (λ v. v.items ≡ take count (drop from (filter_map (λ m. m.out) past.now))) }
{
    let outs = past.iter().filter_map(|m| m.out).skip(from).take(count);
    outs.map(u64::from).collect(heap)
}

impl Moment {
    fn registers(&self, heap: Global) -> Result<Vec<u64>, AllocError>
        ensures { IfOk result (λ v. v.items ≡ self.now.regs) }
    {
        self.regs.iter().copied().map(u64::from).collect(heap)
    }
}

impl Trial {
    // Why it doesn't go on from here, or 0.
    #[tactic(auto, unfolding(command::specs::Plain::status_number))]
    fn why(&self) -> u64
        ensures { (w : Plain) → Kept self.entry.now w → result ≡ status_number (at_time w (suc w.now)).status }
    {
        match self.step() {
            Ok(_) => 0,
            Err(why) => u64::from(why),
        }
    }

    fn place(&self) -> u64
        ensures { (w : Plain) → Kept self.entry.now w → result ≡ (at_time w w.now).at }
    {
        u64::from(self.past[self.now].at)
    }

    // The time, the place, and why it doesn't go on from there.
    pub(crate) fn stands(&self, heap: Global) -> Result<Vec<u64>, AllocError>
        ensures { IfOk result (λ v. (w : Plain) → Kept self.entry.now w → v.items ≡ w.now ∷ (at_time w w.now).at ∷ status_number (at_time w (suc w.now)).status ∷ []) }
    {
        let place = self.place();
        let why = self.why();
        Ok(vec![in heap; self.now as u64, place, why]?)
    }

    pub(crate) fn registers(&self, heap: Global) -> Result<Vec<u64>, AllocError>
        ensures { IfOk result (λ v. (w : Plain) → Kept self.entry.now w → v.items ≡ (at_time w w.now).regs) }
    {
        self.past[self.now].registers(heap)
    }

    // So many words from there on, as far as there are.
    #[tactic(auto, using(crate::proofs::Shows::shown_words, crate::proofs::Moves::words_here))]
    pub(crate) fn words_from(
        &self,
        heap: Global,
        from: u64,
        count: u64,
    ) -> Result<Vec<u64>, AllocError>
        ensures { IfOk result (λ v. (w : Plain) → Kept self.entry.now w → flat eight v.items ≡ words_shown (at_time w w.now).words from count) }
    {
        self.memory.shown(heap, from as usize, count as usize)
    }

    // What has gone out, from the given one on, at most so many.
    pub(crate) fn outs_from(
        &self,
        heap: Global,
        from: u64,
        count: u64,
    ) -> Result<Vec<u64>, AllocError>
        ensures { IfOk result (λ v. (w : Plain) → Kept self.entry.now w → v.items ≡ take count (drop from (at_time w w.now).out)) }
    {
        outs(
            &self.past[..self.now + 1],
            heap,
            from as usize,
            count as usize,
        )
    }
}
