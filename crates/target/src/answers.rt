// What a processor answers: how far it came, where it is, why it does not go on, and why it refuses.

// Why there is no step from here.
#[derive(Clone, Copy, Debug, PartialEq, Eq)]
pub enum Why {
    Halted,
    // For something to come in.
    Waits,
    NoInstr,
    NoWord,
    // A quotient or remainder by 0.
    ByZero,
}

// How far it came, whether a break holds there, and why it does not go on, where it was stopped by that. Both are told, as in the
// definition's `came`.
#[derive(Clone, Copy, Debug, PartialEq, Eq)]
pub struct Came {
    pub by: u64,
    pub hit: bool,
    pub why: Option<Why>,
}

// The place, and why it does not go on from there, if it does not.
#[derive(Clone, Copy, Debug, PartialEq, Eq)]
pub struct Spot {
    pub at: u32,
    pub why: Option<Why>,
}

// Why a processor refuses. It is then as it was.
#[derive(Clone, Copy, Debug, PartialEq, Eq)]
pub enum Fault {
    // More than 4,096 instructions.
    TooLong,
    // More than 64 breaks.
    TooManyBreaks,
    // Slots are numbered from 0 to 255.
    NoSuchSlot,
    // Nothing was kept there.
    EmptySlot,
    // More than 4,096 numbers at once.
    TooManyNumbers,
    NoMemory,
}
