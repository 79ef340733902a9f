// What is kept of a state beside its words. Of what went out the length suffices, since the log has the rest.
ghost use Rattle.std.specs.Prelude.{◌≡◌};

use crate::state::State;

// In `State` these lie beside the words and the log that a step changes with them: as a struct there, each would have a second name before it.
#[derive(Clone, Copy)]
pub(crate) struct Kept {
    pub(crate) at: u32,
    pub(crate) regs: [u32; 16],
    pub(crate) taken: usize,
    pub(crate) put: usize,
}

impl State {
    pub(crate) fn kept(&self) -> Kept
        ensures at { result.at ≡ self.now.at }
        ensures regs { result.regs ≡ self.now.regs }
        ensures taken { result.taken ≡ self.now.taken }
        ensures put { result.put ≡ self.now.put }
    {
        Kept {
            at: self.at,
            regs: self.regs,
            taken: self.taken,
            put: self.put,
        }
    }

    // The words are the caller's to take up; the log stays, and is laid over from there on.
    pub(crate) fn resume(&mut self, k: Kept)
        ensures at { self.new.at ≡ k.at }
        ensures regs { self.new.regs ≡ k.regs }
        ensures taken { self.new.taken ≡ k.taken }
        ensures put { self.new.put ≡ k.put }
        ensures log { self.new.log ≡ self.old.log }
        ensures words { self.new.words ≡ self.old.words }
    {
        let regs = k.regs;
        self.at = k.at;
        self.regs = regs;
        self.taken = k.taken;
        self.put = k.put;
    }
}
