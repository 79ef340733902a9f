// The numbers of the reasons why there is no step. Written anew: the debugger that this one is to be played against shares no code with it.
ghost use Rattle.std.specs.Prelude.{◌≡◌};
ghost use Rattle.command.specs.Plain.{status_number};
ghost use Rattle.trial.specs.Moments.{status_of};

use crate::moments::Why;

impl From<Why> for u64 {
    ghost from_gives = { λ why n. n ≡ status_number (status_of why) };

    #[tactic(auto, unfolding(command::specs::Plain::status_number))]
    fn from(why: Why) -> u64 {
        match why {
            Why::Halted => 1,
            Why::Waits => 2,
            Why::NoInstr => 11,
            Why::NoWord => 12,
            Why::ByZero => 13,
        }
    }
}
