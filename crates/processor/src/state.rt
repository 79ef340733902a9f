// The processor's state.
ghost use Rattle.std.specs.Prelude.{◌≡◌, [], replicate, vec_capacity};

use crate::words::Words;

// It has no model of its own: what it stands for depends on a base, the log and the pages that all states of a run share, which no view of it alone could name.
// So the contracts say `Like` with a base.
#[derive(Drop)]
pub(crate) struct State {
    pub(crate) at: u32,
    pub(crate) regs: [u32; 16],
    pub(crate) words: Words,
    // How much has come in.
    pub(crate) taken: usize,
    // How much of the log has gone out.
    pub(crate) put: usize,
    // All that ever went out on the way. Every state of a run agrees with it as far as it goes, so a state that is kept holds a length alone.
    pub(crate) log: Vec<u32>,
}

impl State {
    // The beginning, but for the words.
    pub(crate) fn restart(&mut self)
        ensures at { self.new.at ≡ 0 }
        ensures regs { self.new.regs ≡ replicate 16 0 }
        ensures taken { self.new.taken ≡ 0 }
        ensures put { self.new.put ≡ 0 }
        ensures log { self.new.log.items ≡ [] }
        ensures room { vec_capacity self.new.log ≡ vec_capacity self.old.log }
        ensures words { self.new.words ≡ self.old.words }
    {
        self.at = 0;
        self.regs = [0; 16];
        self.taken = 0;
        self.put = 0;
        self.log.clear();
    }
}
