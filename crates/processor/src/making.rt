// An emulator made, with all its room.
ghost use Rattle.std.specs.Prelude.{◌≡◌, ℕ, ◌+◌, ◌<◌, ◌≤◌, [], IfOk, None, vec_len, vec_capacity, MatchResult, slice_index_or};
ghost use Rattle.command.specs.Machine.{at_start};
ghost use Rattle.target.specs.Run.{fresh_target};
ghost use Rattle.processor.specs.Like.{Like};
ghost use Rattle.processor.specs.Holding.{Held, room_of};

use crate::emulator::Emulator;
use crate::state::State;
use crate::words::Words;
use std::alloc::{AllocError, Global};
use target::answers::Fault;

// Room in the log for `n` numbers behind the first `put`, taken now, so that going on need not ask for it.
pub(crate) fn make_room(log: &mut Vec<u32>, put: usize, n: u64) -> Result<(), Fault>
    ensures room { MatchResult result (λ _. put + n ≤ vec_capacity log.new) (λ fault. (fault ≡ Fault.NoMemory) × (vec_capacity log.new < put + n)) }
    ensures grows { vec_capacity log.old ≤ vec_capacity log.new }
    ensures items { log.new.items ≡ log.old.items }
{
    let wanted = put.checked_add(n as usize).ok_or(Fault::NoMemory)?;
    let more = wanted.saturating_sub(log.len());
    log.reserve(more).map_err(|_| Fault::NoMemory)
}

impl State {
    fn start(heap: Global) -> Result<State, AllocError>
        ensures { IfOk result (λ m. (4096 ≤ vec_capacity m.log) × (m.log.items ≡ []) × (m.put ≡ 0) × Like (record { log = []; pages = m.words.pages }) m at_start) }
    {
        let words = Words::zeros(heap)?;
        let log = Vec::with_capacity(heap, 4096)?;
        Ok(State {
            at: 0,
            regs: [0; 16],
            words,
            taken: 0,
            put: 0,
            log,
        })
    }
}

impl Emulator {
    // An emulator with no program.
    pub fn new(heap: Global) -> Result<Emulator, AllocError>
        ensures { IfOk result (λ e. (4096 ≤ room_of e) × Held e (fresh_target [])) }
    {
        let program = Vec::with_capacity(heap, 4096)?;
        let fed = Vec::with_capacity(heap, 65536)?;
        let state = State::start(heap)?;
        let slots = vec![in heap; None; 256]?;
        Ok(Emulator {
            program,
            fed,
            state,
            slots,
        })
    }
}
