// What a step of the debugger tells the world outside to do, or why it refuses.

#[derive(Clone, Copy, Debug, PartialEq, Eq)]
pub enum Told {
    // So many instructions, spelled in the row.
    Starts(u64),
    // So many numbers in the row.
    Feeds(u64),
    // So many steps at most, till a break in the row holds.
    Goes(u64),
    Keeps(u64),
    TakesUp(u64),
    Looks(Look),
    // So many bytes.
    Shows(u64),
    Done,
    // An act too, as in the definition: each step tells one act, and no `Result` is unwrapped on the way.
    No(Refusal),
}

// What it is to look at.
#[derive(Clone, Copy, Debug, PartialEq, Eq)]
pub enum Look {
    Registers,
    // As many from a place on as the row says.
    Words,
    Outs,
    // Where it is.
    Place,
}

// Why a step is refused; nothing is changed then.
#[derive(Clone, Copy, Debug, PartialEq, Eq)]
pub enum Refusal {
    // Nothing can be done with what was lent.
    Unfit,
    // It is no command, or nothing waits for it.
    Unexpected,
    // A command that is not known yet.
    Unknown,
    // No more can come in.
    Full,
}
