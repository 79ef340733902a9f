// Whether a break holds after a step.
ghost use Rattle.std.specs.Prelude.{◌≡◌, not, ◌==◌};
ghost use Rattle.command.specs.Machine.{State as Model, every, any, word_at};
ghost use Rattle.command.specs.Plain.{test_holds, holds as held_by};
ghost use Rattle.command.specs.Breaks.{test_of, tests_of, break_of, breaks_of};
ghost use Rattle.processor.specs.Like.{Base, Like, OnTo};

use crate::state::State;
use crate::steps::compare;
use crate::writing::Overwritten;
use command::breaks::{Break, Subject, Test};

impl State {
    fn passes(&self, t: Test) -> bool
        ensures { (b : Base) (s : Model) → Like b self.now s → result ≡ test_holds s (test_of t) }
    {
        let v = match t.subject {
            Subject::Register(k) => self.regs[k.number as usize],
            Subject::Word(a) => self.words.get(a),
        };
        compare(t.comparison, v, t.value)
    }

    fn all_pass(&self, stop: &Break) -> bool
        ensures { (b : Base) (s : Model) → Like b self.now s → result ≡ every (test_holds s) (tests_of stop.now) }
    {
        stop.tests().iter().all(|t| self.passes(*t))
    }

    // Did the step that came to this change the word?
    fn changed(&self, a: u16, wrote: Option<Overwritten>) -> bool
        ensures { (b : Base) (s t : Model) → OnTo b self.now wrote s t → result ≡ not (word_at s.words a == word_at t.words a) }
    {
        wrote.is_some_and(|word| word.place == a && word.before != self.words.get(a))
    }

    // The tests come last, as they cost most.
    fn holds(&self, stop: &Break, wrote: Option<Overwritten>) -> bool
        ensures { (b : Base) (s t : Model) → OnTo b self.now wrote s t → result ≡ held_by s t (break_of stop.now) }
    {
        stop.place.is_none_or(|p| self.at == u32::from(p))
            && stop.changed.is_none_or(|a| self.changed(a, wrote))
            && self.all_pass(stop)
    }

    pub(crate) fn any_holds(&self, breaks: &[Break], wrote: Option<Overwritten>) -> bool
        ensures { (b : Base) (s t : Model) → OnTo b self.now wrote s t → result ≡ any (held_by s t) (breaks_of breaks.now) }
    {
        breaks.iter().any(|stop| self.holds(stop, wrote))
    }
}
