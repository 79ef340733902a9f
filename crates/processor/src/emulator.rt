// The processor of our own: a program, what has come in, a state, and 256 slots.
ghost use Rattle.std.specs.Prelude.{◌≡◌, ◌≤◌, vec_len, vec_capacity};

use crate::kept::Kept;
use crate::state::State;
use command::code::Instr;

// Room for the longest program, for all that may come in and for a stride of what goes out is there from the start.
#[derive(Drop)]
pub struct Emulator {
    pub(crate) program: Vec<Instr>,
    pub(crate) fed: Vec<u32>,
    pub(crate) state: State,
    pub(crate) slots: Vec<Option<Kept>>,
    ghost short: { vec_len program ≤ 4096 },
    ghost many: { vec_len slots ≡ 256 },
    ghost capacity: { 4096 ≤ vec_capacity program },
    ghost intake: { 65536 ≤ vec_capacity fed },
    ghost outlet: { 4096 ≤ vec_capacity state.log },
}
