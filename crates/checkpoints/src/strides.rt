// How far to go at once, so that each state that is to be kept can be.
ghost use Rattle.std.specs.Prelude.{◌≡◌};
ghost use Rattle.checkpoints.specs.Strides.{stride};

use crate::numbers::STRIDE;

// From `here` on by no more than is left, and past no multiple of the stride.
#[tactic(auto, unfolding(crate::specs::Strides::stride))]
pub fn stride(here: u64, left: u64) -> u64
    ensures { result ≡ stride here left }
{
    left.min(STRIDE - here % STRIDE)
}
