// Whether a break holds at a moment, whose words are given.
ghost use Rattle.std.specs.Prelude.{◌≡◌, not, ◌==◌};
ghost use Rattle.command.specs.Machine.{State as Model, each, every, word_at};
ghost use Rattle.command.specs.Plain.{test_holds, holds as held_by};
ghost use Rattle.command.specs.Breaks.{test_of, break_of};
ghost use Rattle.trial.specs.Moments.{At, Words, Came};

use crate::arith::compares;
use crate::memory::Memory;
use crate::moments::Moment;
use command::breaks::{Break, Subject, Test};

impl Moment {
    // Did the step that came to this change the word?
    pub(crate) fn changed(&self, place: u64) -> bool
        ensures { (s t : Model) → Came self.now s t → result ≡ not (word_at s.words place == word_at t.words place) }
    {
        self.written
            .is_some_and(|w| u64::from(w.place) == place && w.before != w.after)
    }

    fn passes(&self, test: &Test, memory: &Memory) -> bool
        ensures { (s : Model) → At self.now s → Words memory.now.words.items s → result ≡ test_holds s (test_of test.now) }
    {
        let value = match test.subject {
            Subject::Register(k) => self.regs[k.number as usize],
            Subject::Word(a) => memory.get(a),
        };
        compares(test.comparison, value, test.value)
    }

    fn passes_all(&self, tests: &[Test], memory: &Memory) -> bool
        ensures { (s : Model) → At self.now s → Words memory.now.words.items s → result ≡ every (test_holds s) (each test_of tests.now) }
    {
        tests.iter().all(|test| self.passes(test, memory))
    }

    pub(crate) fn stops(&self, stop: &Break, memory: &Memory) -> bool
        ensures { (s t : Model) → Came self.now s t → Words memory.now.words.items t → result ≡ held_by s t (break_of stop.now) }
    {
        stop.place.is_none_or(|place| self.at == u32::from(place))
            && stop.changed.is_none_or(|a| self.changed(u64::from(a)))
            && self.passes_all(&stop.tests[..stop.count as usize], memory)
    }
}
