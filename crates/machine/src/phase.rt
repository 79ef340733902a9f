// What was done last, so what is to come.
ghost use Rattle.std.specs.Prelude.{◌≡◌};
ghost use Rattle.machine.specs.Phases.{phase_number, phase_of};

#[derive(Clone, Copy, Debug, PartialEq, Eq)]
pub enum Phase {
    Idle,
    // What is to be shown was, or what comes in did.
    Ending,
    // A program began, and is being kept.
    Beginning,
    GoingOn,
    // A multiple of the spacing was reached, and is being kept.
    Keeping,
    // Where it is was asked for.
    Placing,
    // Numbers were asked for.
    Telling,
}

// A number that is no phase's is as good as idle.
impl From<u64> for Phase {
    ghost from_gives = { λ number phase. phase ≡ phase_of number };

    fn from(number: u64) -> Phase {
        match number {
            1 => Phase::Ending,
            2 => Phase::Beginning,
            3 => Phase::GoingOn,
            4 => Phase::Keeping,
            5 => Phase::Placing,
            6 => Phase::Telling,
            _ => Phase::Idle,
        }
    }
}

impl From<Phase> for u64 {
    ghost from_gives = { λ phase number. number ≡ phase_number phase };

    fn from(phase: Phase) -> u64 {
        phase as u64
    }
}
