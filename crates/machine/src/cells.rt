// The cells of the memory, and the lengths of what is lent.

// How many cells the memory has, and how many numbers the row has at least.
pub const CELLS: usize = 32_000;

pub const ROW: usize = 65_536;

pub const PHASE: usize = 0;

pub const TIME: usize = 1;
// How much has come in.
pub const FED: usize = 2;
// Of the command under way: steps left, and the number of the next act of a plan.
pub const STEPS_LEFT: usize = 3;

pub const CURSOR: usize = 4;
// One a level, from here on: by how much the block that is built below falls short.
pub const GAPS: usize = 16;
