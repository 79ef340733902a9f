// What is proved of going on. Each function does nothing; its contract is a statement, so that the check fails without its proof.
ghost use Rattle.target.specs.Statements.{GoingOn, GoingThere};

// Going on by n and then by m is going on by n + m.
#[tactic(auto, using(crate::proofs::Goings::going_on))]
pub fn going_on() -> u8
    ensures { GoingOn }
{
    0
}

// Going on by n from the beginning comes to the state at time n, if the processor runs there.
#[tactic(auto, using(crate::proofs::Goings::going_there))]
pub fn going_there() -> u8
    ensures { GoingThere }
{
    0
}
