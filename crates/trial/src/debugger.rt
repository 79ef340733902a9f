// The debugger: a program, what has come in, every state there was, and the breaks.
ghost use Rattle.std.specs.Prelude.{◌≡◌, ◌<◌, ◌≤◌, vec_len};

use crate::memory::Memory;
use crate::moments::Moment;
use command::breaks::Break;
use command::code::Instr;

// A break as it was set.
#[derive(Clone, Copy)]
pub(crate) struct Numbered {
    pub(crate) number: u64,
    pub(crate) stop: Break,
}

// That it holds a plain debugger is a premise of its methods and no invariant: once memory has run out in the midst of a command, it may hold none.
#[derive(Drop)]
pub struct Trial {
    pub(crate) program: Vec<Instr>,
    pub(crate) fed: Vec<u32>,
    // At each time since the beginning, as far as it ever went.
    pub(crate) past: Vec<Moment>,
    pub(crate) now: usize,
    // As it is at `now`.
    pub(crate) memory: Memory,
    // In the order in which they were set, in which they are asked; at most 64, so a search along them is short.
    pub(crate) breaks: Vec<Numbered>,
    // The number of the next break.
    pub(crate) next: u64,
    ghost short: { vec_len program ≤ 4096 },
    ghost intake: { vec_len fed ≤ 65536 },
    ghost bounded: { vec_len past ≤ 1099511627776 },
    ghost known: { now < vec_len past },
    ghost few: { vec_len breaks ≤ 64 },
}
