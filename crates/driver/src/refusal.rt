// Why what was said is not done.
ghost use Rattle.std.specs.Prelude.{◌≡◌};
ghost use Rattle.target.specs.Run.{refusal_end};
ghost use Rattle.machine.specs.Entry.{refusal_number as machine_number};
ghost use Rattle.driver.specs.Refusals.{refusal_number};

#[derive(Clone, Copy, Debug, PartialEq, Eq)]
pub enum Refusal {
    // It is no command.
    NoCommand,
    // A command that is not known yet.
    NotKnown,
    // No more can come in.
    Full,
    // It showed more than one text, or never ended: no command does.
    Never,
    // An act cannot be.
    Fault,
}

// Why a command is not done: it is refused, or memory ended.
#[derive(Clone, Copy, Debug, PartialEq, Eq)]
pub enum SayError {
    // Refused, after the steps that the processor made.
    Refused { why: Refusal, steps: u64 },
    // The processor had no memory for what may go out in a stride: the session cannot go on.
    NoMemory,
}

impl From<Refusal> for u64 {
    ghost from_gives = { λ why n. n ≡ refusal_number why };

    fn from(why: Refusal) -> u64 {
        match why {
            Refusal::NoCommand => 1,
            Refusal::NotKnown => 2,
            Refusal::Full => 7,
            Refusal::Never => 1000,
            Refusal::Fault => 1001,
        }
    }
}

impl From<machine::Refusal> for Refusal {
    ghost from_gives = { λ told why. refusal_number why ≡ refusal_end (machine_number told) };

    fn from(told: machine::Refusal) -> Refusal {
        match told {
            machine::Refusal::Unfit => Refusal::Fault,
            machine::Refusal::Unexpected => Refusal::NoCommand,
            machine::Refusal::Unknown => Refusal::NotKnown,
            machine::Refusal::Full => Refusal::Full,
        }
    }
}
