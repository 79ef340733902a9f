// What is proved of the checkpoints. Each function does nothing; its contract is a statement, so that the check fails without its proof.
ghost use Rattle.checkpoints.specs.Statements.{SlotsApart, SlotsFew, CanBeReady, Starts, Restarts, StaysReady, ArrivesReady, GoesForward, MovesLevels, Settles, GoesBack, KeptNear, FindsBack, FindsNone, BeginsSo, ArrivesSo, ReachesSo};

// A level's slots are its own, and apart as far as they are used at once.
#[tactic(auto, using(crate::proofs::Stand::slots_apart))]
pub fn slots_apart() -> u8
    ensures { SlotsApart }
{
    0
}

// No plan keeps into or takes up a slot past the last of 182, nor does a single act, whatever it is asked for.
#[tactic(auto, using(crate::proofs::Fewness::slots_few))]
pub fn slots_few() -> u8
    ensures { SlotsFew }
{
    0
}

// For each time there are slots that are ready: no two states that are to be kept at once share one.
#[tactic(auto, using(crate::proofs::Stand::can_be_ready))]
pub fn can_be_ready() -> u8
    ensures { CanBeReady }
{
    0
}

// At load everything is made ready for time 0, at no step.
#[tactic(auto, using(crate::proofs::Stand::starts))]
pub fn starts() -> u8
    ensures { Starts }
{
    0
}

// So it is from any time, with the top level's state of time 0.
#[tactic(auto, using(crate::proofs::Stand::restarts))]
pub fn restarts() -> u8
    ensures { Restarts }
{
    0
}

// What is ready stays so up to the next multiple of 4,096.
#[tactic(auto, using(crate::proofs::Stand::stays_ready))]
pub fn stays_ready() -> u8
    ensures { StaysReady }
{
    0
}

// There it is made ready again by a few keeps, at no step.
#[tactic(auto, using(crate::proofs::Stand::arrives_ready))]
pub fn arrives_ready() -> u8
    ensures { ArrivesReady }
{
    0
}

// From t to u in exactly u - t steps, and ready at u.
#[tactic(auto, using(crate::proofs::Stand::goes_forward))]
pub fn goes_forward() -> u8
    ensures { GoesForward }
{
    0
}

// All levels become ready for u, n steps back, in at most 15 n steps, and no further than where they were.
#[tactic(auto, using(crate::proofs::Stand::moves_levels))]
pub fn moves_levels() -> u8
    ensures { MovesLevels }
{
    0
}

// The processor comes to u in less than 4,096 steps, where everything is ready for u.
#[tactic(auto, using(crate::proofs::Stand::settles))]
pub fn settles() -> u8
    ensures { Settles }
{
    0
}

// Both: back by n steps in at most 4,096 + 15 n, and ready there.
#[tactic(auto, using(crate::proofs::Stand::goes_back))]
pub fn goes_back() -> u8
    ensures { GoesBack }
{
    0
}

// Before any time there is a kept state, not further before it than 4,096 or than it is before now.
#[tactic(auto, using(crate::proofs::Stand::kept_near))]
pub fn kept_near() -> u8
    ensures { KeptNear }
{
    0
}

// Looking back finds what was n steps ago in at most 4,096 + 17 n steps, and is ready there.
#[tactic(auto, using(crate::proofs::Stand::finds_back))]
pub fn finds_back() -> u8
    ensures { FindsBack }
{
    0
}

// Where there is nothing, it takes as many steps as there were, and is back where it began.
#[tactic(auto, using(crate::proofs::Stand::finds_none))]
pub fn finds_none() -> u8
    ensures { FindsNone }
{
    0
}

// What `beginning` answers are the acts of the plan at load.
#[tactic(auto, using(crate::proofs::Arriving::begins_so))]
pub fn begins_so() -> u8
    ensures { BeginsSo }
{
    0
}

// What `arrival` answers are the acts of the plan on reaching a multiple of 4,096.
#[tactic(auto, using(crate::proofs::Arriving::arrives_so))]
pub fn arrives_so() -> u8
    ensures { ArrivesSo }
{
    0
}

// The gaps of as many levels as `levels_reached` says become 0, at least one, and the others stay.
#[tactic(auto, using(crate::proofs::Arriving::reaches_so))]
pub fn reaches_so() -> u8
    ensures { ReachesSo }
{
    0
}
