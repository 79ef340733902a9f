// One step of the debugger: what it is told, by its phase.
ghost use Rattle.std.specs.Prelude.{◌≡◌, suc, [], ◌∷◌, length, slice_index};
ghost use Rattle.target.specs.Run.{keeps, done};
ghost use Rattle.machine.specs.Engine.{puts, plan, cell, phase, idle, cursor, planned, on_came, on_saw, on_next};
ghost use Rattle.machine.specs.Entry.{Carries, StepSays, step_fits};
ghost use Rattle.machine.specs.Lent.{Does};
ghost use Rattle.machine.specs.Phases.{phase_number, event_meant};

use crate::acts::{Refusal, Told};
use crate::cells::{CELLS, CURSOR, PHASE, ROW, STEPS_LEFT, TIME};
use crate::event::{Came, Event, event_from};
use crate::lent::Lent;
use crate::phase::Phase;
use crate::row::show;
use checkpoints::numbers::STRIDE;
use checkpoints::{arrival, beginning};

// How many numbers are shown at most.
const MOST_SHOWN: usize = 4_096;

// The number at a place, or 0.
fn number_at(numbers: &[u64], place: usize) -> u64
    ensures { result ≡ slice_index numbers.now place }
{
    numbers.get(place).copied().unwrap_or(0)
}

impl Lent<'_> {
    // The processor came so far.
    #[tactic(auto, unfolding(crate::specs::Engine::on_came, crate::specs::Engine::written))]
    fn on_came(self, phase: Phase, came: Came) -> Told
        ensures { Does (on_came (phase_number phase) self.entry.memory.now came.by came.hit came.why) self.entry result self.exit }
    {
        match phase {
            Phase::GoingOn => self.come(came),
            _ => Told::No(Refusal::Unexpected),
        }
    }

    // It was looked at: that is shown, if there is room for it.
    #[tactic(auto, unfolding(crate::specs::Engine::on_saw, crate::specs::Engine::written, crate::specs::Engine::cell))]
    fn on_saw(self, phase: Phase, seen: &[u64]) -> Told
        ensures { Does (on_saw (phase_number phase) self.entry.memory.now seen.now) self.entry result self.exit }
    {
        match phase {
            Phase::Placing => {
                let here = self.memory[TIME];
                self.memory[PHASE] = Phase::Ending.into();
                show(self.row, &[here, number_at(seen, 0), number_at(seen, 1)])
            }
            Phase::Telling => {
                if seen.len() > MOST_SHOWN {
                    return Told::No(Refusal::Unexpected);
                }
                self.memory[PHASE] = Phase::Ending.into();
                show(self.row, seen)
            }
            _ => Told::No(Refusal::Unexpected),
        }
    }

    // The command is done.
    #[tactic(auto, unfolding(crate::specs::Engine::written))]
    fn finish(self) -> Told
        ensures { Does (plan (puts phase idle ∷ []) done) self.entry result self.exit }
    {
        self.memory[PHASE] = Phase::Idle.into();
        Told::Done
    }

    // The state is kept, and one more act of the plan is done.
    #[tactic(auto, unfolding(crate::specs::Engine::written, crate::specs::Engine::cell))]
    fn keep(self, slot: u64) -> Told
        ensures { Does (plan (puts cursor (suc (cell self.entry.memory.now cursor)) ∷ []) (keeps slot)) self.entry result self.exit }
    {
        self.memory[CURSOR] = self.memory[CURSOR].wrapping_add(1);
        Told::Keeps(slot)
    }

    // The last act is done: on with the plan.
    #[tactic(auto, unfolding(crate::specs::Engine::on_next, crate::specs::Engine::written, crate::specs::Engine::cell, crate::specs::Engine::kept_or))]
    fn on_next(self, phase: Phase) -> Told
        ensures { Does (on_next (phase_number phase) self.entry.memory.now) self.entry result self.exit }
    {
        match phase {
            Phase::Ending => self.finish(),
            // The two plans end differently: a match each is shorter than a function that is handed the end.
            Phase::Beginning => match beginning(self.memory[CURSOR]) {
                Some(slot) => self.keep(slot),
                None => self.finish(),
            },
            Phase::Keeping => {
                let here = self.memory[TIME];
                let left = self.memory[STEPS_LEFT];
                match arrival(here / STRIDE, self.memory[CURSOR]) {
                    Some(slot) => self.keep(slot),
                    None => self.set_off(here, left),
                }
            }
            _ => Told::No(Refusal::Unexpected),
        }
    }

    // What the debugger does next; whatever it is at, a command begins anew.
    #[tactic(auto, unfolding(crate::specs::Engine::planned, crate::specs::Engine::cell))]
    fn react(self, event: Event) -> Told
        ensures { Does (planned self.entry.memory.now (event_meant event.entry)) self.entry result self.exit }
    {
        let phase = Phase::from(self.memory[PHASE]);
        match event {
            Event::Said(text) => self.hear(text),
            Event::Came(came) => self.on_came(phase, came),
            Event::Saw(seen) => self.on_saw(phase, seen),
            Event::Next => self.on_next(phase),
        }
    }
}

// What is lent has its lengths.
fn answer(memory: &mut [u64; CELLS], event: Event, row: &mut [u64; ROW]) -> Told
    ensures told { Carries (planned memory.old (event_meant event.entry)) memory.old result row.old memory.new row.new }
    ensures wide { length row.new ≡ 65536 }
{
    Lent { memory, row }.react(event)
}

// The event of a kind is answered, on a memory and a row of their lengths; else nothing is changed.
#[tactic(auto, using(crate::proofs::Steps::step_refused, crate::proofs::Steps::kind_unfit, crate::proofs::Steps::memory_unfit, crate::proofs::Steps::row_unfit))]
pub fn step(
    memory: &mut [u64],
    kind: u64,
    a: u64,
    b: u64,
    c: u64,
    told: &[u64],
    out: &mut [u64],
) -> Told
    ensures { StepSays memory.old kind a b c told.now out.old (step_fits memory.old kind out.old) result memory.new out.new }
{
    // What is told is no `Option`, so `?` has no place here; a match of all three would forget that what is lent stays.
    let Some(event) = event_from(kind, a, b, c, told) else {
        return Told::No(Refusal::Unfit);
    };
    let Some(memory) = memory.as_mut_array() else {
        return Told::No(Refusal::Unfit);
    };
    let Some(row) = out.first_chunk_mut() else {
        return Told::No(Refusal::Unfit);
    };
    answer(memory, event, row)
}
