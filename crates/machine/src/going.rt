// Going on in strides, and what is kept on the way.
ghost use Rattle.std.specs.Prelude.{◌≡◌, ◌-◌, ◌%◌, ◌≤◌, not, ◌&&◌, [], ◌==◌};
ghost use Rattle.command.specs.Machine.{pick};
ghost use Rattle.machine.specs.Engine.{written, gaps_shut, arrived, set_off, come_to, went};
ghost use Rattle.machine.specs.Lent.{Does};

use crate::acts::Told;
use crate::cells::{CELLS, CURSOR, GAPS, PHASE, STEPS_LEFT, TIME};
use crate::event::Came;
use crate::lent::Lent;
use crate::phase::Phase;
use crate::row::{put_front, show};
use checkpoints::numbers::STRIDE;
use checkpoints::{arrival, levels_reached, stride};

// The gaps of the lowest levels become 0.
fn shut_gaps(memory: &mut [u64; CELLS], levels: usize)
    requires few { levels ≤ 15 }
    ensures { memory.new ≡ written (gaps_shut levels) memory.old }
{
    memory[GAPS..GAPS + levels].fill(0);
}

// Whether it went on, and to a multiple of the stride.
fn reaches(here: u64, by: u64) -> bool
    ensures { result ≡ (here % 4096 == 0 && not (by == 0)) }
{
    here % STRIDE == 0 && by != 0
}

// How many steps are left: where it stopped, none.
fn left_after(left: u64, came: Came) -> u64
    ensures { result ≡ pick (not came.hit && came.why == 0) (left - came.by) 0 }
{
    if came.hit || came.why != 0 {
        return 0;
    }
    left.saturating_sub(came.by)
}

impl Lent<'_> {
    // It is where it is to be: the time is shown.
    #[tactic(auto, unfolding(crate::specs::Engine::arrived, crate::specs::Engine::written))]
    fn arrive(self, here: u64) -> Told
        ensures { Does (arrived [] here) self.entry result self.exit }
    {
        self.memory[PHASE] = Phase::Ending.into();
        show(self.row, &[here])
    }

    // From a time on by what is left, if anything is.
    #[tactic(auto, unfolding(crate::specs::Engine::set_off, crate::specs::Engine::written))]
    pub fn set_off(self, here: u64, left: u64) -> Told
        ensures { Does (set_off [] here left) self.entry result self.exit }
    {
        if left == 0 {
            return self.arrive(here);
        }
        self.memory[PHASE] = Phase::GoingOn.into();
        // No breaks.
        put_front(self.row, &[0]);
        Told::Goes(stride(here, left))
    }

    // It came to a time, and so many steps are left: a multiple of the stride that it has reached is kept first.
    #[tactic(auto, unfolding(crate::specs::Engine::come_to, crate::specs::Engine::written, crate::specs::Engine::kept_or, crate::specs::Engine::set_off, crate::specs::Engine::arrived))]
    fn come_to(self, reached: bool, here: u64, left: u64) -> Told
        ensures { Does (come_to reached here left) self.entry result self.exit }
    {
        self.memory[TIME] = here;
        self.memory[STEPS_LEFT] = left;
        if !reached {
            return self.set_off(here, left);
        }
        let Some(slot) = arrival(here / STRIDE, 0) else {
            return self.set_off(here, left);
        };
        self.memory[PHASE] = Phase::Keeping.into();
        self.memory[CURSOR] = 1;
        shut_gaps(self.memory, levels_reached(here / STRIDE));
        Told::Keeps(slot)
    }

    // The processor came so far.
    #[tactic(auto, unfolding(crate::specs::Engine::went, crate::specs::Engine::cell))]
    pub fn come(self, came: Came) -> Told
        ensures { Does (went self.entry.memory.now came.by came.hit came.why) self.entry result self.exit }
    {
        let here = self.memory[TIME].wrapping_add(came.by);
        let left = left_after(self.memory[STEPS_LEFT], came);
        self.come_to(reaches(here, came.by), here, left)
    }
}
