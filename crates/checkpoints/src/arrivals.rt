// What is kept at time 0 and on reaching a multiple of the stride, one state after another.
ghost use Rattle.std.specs.Prelude.{◌≡◌, ◌≤◌};
ghost use Rattle.checkpoints.specs.Arrivals.{SlotFew, beginning_slot, arrival_slot, levels_reached};

use crate::numbers::{FAN, LEVEL_SLOTS, LEVELS, TOP_POINTS};
use crate::places::slot_of;

// The slot of keep number `i` at time 0.
#[tactic(auto, using(std::proofs::lemmas::Bool::Decides::nat_tests), unfolding(crate::specs::Arrivals::beginning_slot))]
pub fn beginning(i: u64) -> Option<u64>
    ensures slot { result ≡ beginning_slot i }
    ensures few { SlotFew result }
{
    if i <= LEVELS {
        return Some(LEVEL_SLOTS * i);
    }
    None
}

// The slot of keep number `i` on reaching the time `n` strides from 0. It goes up from level to level, as long as a block begins.
#[tactic(auto, using(crate::proofs::Arriving::turns), unfolding(crate::specs::Arrivals::arrival_slot))]
pub fn arrival(n: u64, i: u64) -> Option<u64>
    ensures slot { result ≡ arrival_slot n i }
    ensures few { SlotFew result }
{
    let mut point = n;
    let mut left = i;
    for level in 0..LEVELS {
        let block = point / FAN;
        if left == 0 {
            return Some(slot_of(level, block, point % FAN));
        }
        if point % FAN != 0 {
            return None;
        }
        if left == 1 {
            return Some(slot_of(level, block.saturating_sub(1), FAN));
        }
        point = block;
        left -= 2;
    }
    if left == 0 {
        return Some(LEVELS * LEVEL_SLOTS + point % TOP_POINTS);
    }
    None
}

// Of how many levels, from the lowest on, a point is reached at the time `n` strides from 0: the gaps of so many become 0.
#[tactic(auto, using(crate::proofs::Arriving::levels_by_zeros, std::proofs::lemmas::Nat::trailing_le))]
pub fn levels_reached(n: u64) -> usize
    ensures reached { result ≡ levels_reached n }
    ensures most { result ≤ 15 }
{
    // Each level's points are 2^3 points of the level below.
    (n.trailing_zeros() / 3 + 1).min(15) as usize
}
