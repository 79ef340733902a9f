// Where looking back goes on from.
ghost use Rattle.std.specs.Prelude.{◌≡◌, ◌+◌, ◌*◌, ◌/◌, ◌%◌, ◌^◌, ◌<◌, ◌≤◌, length};
ghost use Rattle.checkpoints.specs.Numbers.{most_time};
ghost use Rattle.checkpoints.specs.Policy.{slot, last_kept};
ghost use Rattle.checkpoints.specs.Kept.{Says};

use crate::numbers::{FAN, LEVEL_SLOTS, LEVELS, STRIDE};
use crate::places::slot_of;

// A checkpoint is a kept state, by its slot and its time.
#[derive(Clone, Copy, Debug, PartialEq, Eq, Drop)]
pub struct Checkpoint {
    pub slot: u64,
    pub time: u64,
}

// A level below the top one, and how many steps its points are apart.
#[derive(Clone, Copy)]
struct Level {
    number: u64,
    spacing: u64,
    ghost low: { number < 15 },
    ghost spaced: { spacing ≡ 4096 * 8 ^ number },
}

impl Level {
    // What is kept at a point.
    fn point(self, n: u64) -> Checkpoint
        requires { n * self.spacing < 18446744073709551616 }
        ensures slot { result.slot ≡ slot self.number (n / 8) (n % 8) }
        ensures time { result.time ≡ n * self.spacing }
    {
        Checkpoint {
            slot: slot_of(self.number, n / FAN, n % FAN),
            time: n * self.spacing,
        }
    }

    // The time is `t`: a kept state at or before `y`, if the two blocks that the level keeps reach back to it. The point that is being built is short by `gap`.
    #[tactic(auto, using(crate::proofs::LevelUp::one_level))]
    fn last(self, t: u64, y: u64, gap: u64) -> Option<Checkpoint>
        ensures { Says self.number self.spacing t y gap result }
    {
        let here = t / self.spacing;
        let sought = y / self.spacing;
        let block = sought / FAN;
        let left = FAN - 1 - here % FAN;
        match (here / FAN).saturating_sub(block) {
            0 => Some(self.point(sought)),
            1 if sought % FAN <= left => Some(self.point(sought)),
            1 => Some(Checkpoint {
                slot: slot_of(self.number, block, left + 1),
                time: ((FAN * block + left + 1) * self.spacing).saturating_sub(gap),
            }),
            _ => None,
        }
    }
}

// The time is `t`: a kept state at or before `y`, from the lowest level whose two blocks reach back to it. The gaps may be anything; only where they are those
// of the checkpoints is it kept. They are a slice, and no array, because they lie in lent memory.
#[tactic(auto, using(crate::proofs::LevelUp::all_levels), unfolding(crate::specs::Policy::last_kept))]
pub fn last_kept(gaps: &[u64], t: u64, y: u64) -> Checkpoint
    requires { length gaps.now ≡ 15 }
    ensures slot { result.slot ≡ (last_kept gaps.now t y).slot_is }
    ensures time { result.time ≡ (last_kept gaps.now t y).time_is }
    ensures few { y < most_time → result.slot < 182 }
{
    let mut spacing = STRIDE;
    for (number, gap) in gaps.iter().enumerate() {
        let level = Level {
            number: number as u64,
            spacing,
        };
        if let Some(found) = level.last(t, y, *gap) {
            return found;
        }
        spacing *= FAN;
    }
    Checkpoint {
        slot: LEVELS * LEVEL_SLOTS + y / spacing,
        time: y / spacing * spacing,
    }
}
