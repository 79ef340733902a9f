// The slots of a level's points.
ghost use Rattle.std.specs.Prelude.{◌≡◌, ◌<◌, ◌≤◌};
ghost use Rattle.checkpoints.specs.Policy.{slot};

use crate::numbers::{FAN, LEVEL_SLOTS};

// The slot of a block's point at a level: even blocks count up and odd ones down, so that a block and the one below it share the slots.
#[tactic(auto, using(std::proofs::lemmas::Bool::Decides::nat_tests), unfolding(crate::specs::Policy::slot))]
pub fn slot_of(level: u64, block: u64, point: u64) -> u64
    requires level_bound { level < 15 }
    requires point_bound { point ≤ 9 }
    ensures { result ≡ slot level block point }
{
    if block % 2 == 0 {
        return LEVEL_SLOTS * level + point;
    }
    LEVEL_SLOTS * level + (FAN + 1 - point)
}
