// Moving in time: on by steps that are made once, back over those that were, and the words with them.
ghost use Rattle.std.specs.Prelude.{◌≡◌, ℕ, suc, ◌+◌, ◌-◌, ◌<◌, ◌≤◌, true, false, List, [], ◌∷◌, IfOk, vec_len, MatchOption, OnOk};
ghost use Rattle.std.specs.Fn.{FnReturnsAt};
ghost use Rattle.command.specs.Machine.{pick, goes_on};
ghost use Rattle.command.specs.Plain.{Plain, Break as Asked, at_time, moved, holds_at, on_till, back_till, last_change};
ghost use Rattle.trial.specs.Kept.{Kept, Tells};
ghost use Rattle.trial.specs.Moments.{Next};

use crate::debugger::Trial;
use crate::moments::{Moment, Why};
use std::alloc::AllocError;

// More moments than any memory holds. Nothing else bounds them, and what a command may step is to fit 64 bits.
const MOST: usize = 1_099_511_627_776;

impl Trial {
    // How many steps there were since the beginning.
    pub fn time(&self) -> u64
        ensures { (w : Plain) → Kept self.entry.now w → result ≡ w.now }
    {
        self.now as u64
    }

    // What one step makes of the state that it is at.
    pub(crate) fn step(&self) -> Result<Moment, Why>
        ensures { (w : Plain) → Kept self.entry.now w → Next result (at_time w w.now) (at_time w (suc w.now)) }
    {
        self.past[self.now].next(self.program.as_slice(), self.fed.as_slice(), &self.memory)
    }

    // Is there a step from here? Made, if it never was.
    fn reaches(&mut self) -> Result<bool, AllocError>
        ensures there { IfOk result (λ b. (b ≡ true → self.new.now + 1 < vec_len self.new.past)) }
        ensures tells { IfOk result (λ b. (w : Plain) → Kept self.old w → (goes_on w.program w.ins w.now ≡ b) × Kept self.new w) }
    {
        if self.now + 1 < self.past.len() {
            return Ok(true);
        }
        // That there is no step is an answer here, and no error.
        let Ok(moment) = self.step() else {
            return Ok(false);
        };
        if self.past.len() >= MOST {
            return Err(AllocError);
        }
        self.past.push(moment)?;
        Ok(true)
    }

    // On by a step that was made.
    fn redo(&mut self)
        requires { self.now.now + 1 < vec_len self.now.past }
        ensures kept { (w : Plain) → Kept self.old w → Kept self.new (moved w (w.now + 1)) }
        ensures time { self.new.now ≡ self.old.now + 1 }
    {
        self.now += 1;
        if let Some(w) = self.past[self.now].written {
            self.memory.put(w.place, w.after);
        }
    }

    // Back over a step.
    fn undo(&mut self)
        requires { 0 < self.now.now }
        ensures kept { (w : Plain) → Kept self.old w → Kept self.new (moved w (w.now - 1)) }
        ensures time { self.new.now ≡ self.old.now - 1 }
    {
        let time = self.now;
        self.now -= 1;
        if let Some(w) = self.past[time].written {
            self.memory.put(w.place, w.before);
        }
    }

    // One step on, if there is one.
    fn goes_on(&mut self) -> Result<bool, AllocError>
        ensures goes { IfOk result (λ b. (w : Plain) → Kept self.old w → (goes_on w.program w.ins w.now ≡ b) × Kept self.new (moved w (pick b (w.now + 1) w.now))) }
        ensures later { IfOk result (λ b. (b ≡ true → 0 < self.new.now)) }
    {
        if !self.reaches()? {
            return Ok(false);
        }
        self.redo();
        Ok(true)
    }

    // Does a break hold? At the beginning that says nothing, since no step came to it.
    fn stops(&self) -> bool
        ensures { (w : Plain) → Kept self.entry.now w → 0 < w.now → result ≡ holds_at w w.breaks w.now }
    {
        let moment = &self.past[self.now];
        self.breaks
            .iter()
            .any(|b| moment.stops(&b.stop, &self.memory))
    }

    // On, till a test stops it.
    fn on_till<F: Fn(&Trial) -> bool>(&mut self, most: u64, stops: F) -> Result<(), AllocError>
        requires { F.IsAlwaysCallable stops }
        ensures { OnOk result ((w : Plain) (bs : List Asked) → Tells (FnReturnsAt F.Fn stops) w bs → Kept self.old w → Kept self.new (moved w (on_till w bs w.now most))) }
    {
        for _ in 0..most {
            if !self.goes_on()? {
                return Ok(());
            }
            if stops(self) {
                return Ok(());
            }
        }
        Ok(())
    }

    // Back, till a test stops it.
    fn back_till<F: Fn(&Trial) -> bool>(&mut self, most: u64, stops: F)
        requires { F.IsAlwaysCallable stops }
        ensures kept { (w : Plain) (bs : List Asked) → Tells (FnReturnsAt F.Fn stops) w bs → Kept self.old w → Kept self.new (moved w (back_till w bs w.now most)) }
        ensures time { ((e : Trial) → FnReturnsAt F.Fn stops e true → ⊥) → self.new.now ≡ self.old.now - most }
    {
        for _ in 0..self.now.min(most as usize) {
            self.undo();
            if stops(self) {
                return;
            }
        }
    }

    pub(crate) fn forward(&mut self, most: u64) -> Result<(), AllocError>
        ensures { OnOk result ((w : Plain) → Kept self.old w → Kept self.new (moved w (on_till w [] w.now most))) }
    {
        self.on_till(most, |_| false)
    }

    // On, till a break holds.
    pub(crate) fn run(&mut self, most: u64) -> Result<(), AllocError>
        ensures { OnOk result ((w : Plain) → Kept self.old w → Kept self.new (moved w (on_till w w.breaks w.now most))) }
    {
        self.on_till(most, |trial| trial.stops())
    }

    pub(crate) fn back(&mut self, most: u64)
        ensures kept { (w : Plain) → Kept self.old w → Kept self.new (moved w (w.now - most)) }
        ensures time { self.new.now ≡ self.old.now - most }
    {
        self.back_till(most, |_| false);
    }

    // Back, till a break holds.
    pub(crate) fn rerun(&mut self, most: u64)
        ensures { (w : Plain) → Kept self.old w → Kept self.new (moved w (back_till w w.breaks w.now most)) }
    {
        self.back_till(most, |trial| trial.stops());
    }

    // How many steps ago the word changed last, if it ever did.
    pub(crate) fn since_change(&self, place: u64) -> Option<usize>
        ensures { (w : Plain) → Kept self.entry.now w → MatchOption result (last_change w place w.now ≡ []) (λ n. last_change w place w.now ≡ (w.now - n) ∷ []) }
    {
        let past = &self.past[..self.now + 1];
        past.iter().rev().position(|m| m.changed(place))
    }
}
