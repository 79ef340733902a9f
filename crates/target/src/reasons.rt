// The numbers that stand for the reasons why there is no step.
ghost use Rattle.std.specs.Prelude.{◌≡◌, Some};
ghost use Rattle.target.specs.Whys.{why_number, Reads};

use crate::answers::Why;

// A number that stands for no reason.
#[derive(Clone, Copy, Debug, PartialEq, Eq)]
pub struct NoSuchWhy(pub u64);

impl From<Why> for u64 {
    ghost from_gives = { λ y n. n ≡ why_number (Some y) };

    #[tactic(auto, unfolding(command::specs::Plain::status_number))]
    fn from(why: Why) -> u64 {
        match why {
            Why::Halted => 1,
            Why::Waits => 2,
            Why::NoInstr => 11,
            Why::NoWord => 12,
            Why::ByZero => 13,
        }
    }
}

impl TryFrom<u64> for Why {
    type Error = NoSuchWhy;

    ghost try_from_gives = { Reads };

    #[tactic(auto, unfolding(command::specs::Plain::status_number))]
    fn try_from(number: u64) -> Result<Why, NoSuchWhy> {
        match number {
            1 => Ok(Why::Halted),
            2 => Ok(Why::Waits),
            11 => Ok(Why::NoInstr),
            12 => Ok(Why::NoWord),
            13 => Ok(Why::ByZero),
            _ => Err(NoSuchWhy(number)),
        }
    }
}
