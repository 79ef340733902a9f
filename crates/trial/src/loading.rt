// A debugger made, a program loaded, and numbers given.
ghost use Rattle.std.specs.Prelude.{◌≡◌, IfOk};
ghost use Rattle.command.specs.Plain.{Plain, give as given};
ghost use Rattle.trial.specs.Kept.{Kept, fresh};
ghost use Rattle.trial.specs.Turns.{Turns, Loads};

use crate::debugger::Trial;
use crate::memory::Memory;
use crate::moments::Moment;
use crate::turns::{Refusal, Turn};
use command::code::Instr;
use std::alloc::{AllocError, Global};

const MOST_INSTRS: usize = 4_096;

const MOST_FED: usize = 65_536;

impl Trial {
    // With no program.
    pub fn new(heap: Global) -> Result<Trial, AllocError>
        ensures { IfOk result (λ e. Kept e fresh) }
    {
        let mut past = Vec::new(heap);
        past.push(Moment::first())?;
        let memory = Memory::new(heap)?;
        Ok(Trial {
            program: Vec::new(heap),
            fed: Vec::new(heap),
            past,
            now: 0,
            memory,
            breaks: Vec::new(heap),
            next: 1,
        })
    }

    // All begins anew. A program of more than 4,096 instructions is no command's.
    pub fn load(&mut self, program: &[Instr]) -> Result<Turn, AllocError>
        ensures { IfOk result (λ t. (w : Plain) → Kept self.old w → Loads t self.new w program.now) }
    {
        if program.len() > MOST_INSTRS {
            return Ok(Turn::free(Err(Refusal::NoCommand)));
        }
        // The words are then as at the beginning.
        self.back(self.now as u64);
        self.past.truncate(1);
        self.program.clear();
        self.fed.clear();
        self.breaks.clear();
        self.next = 1;
        self.program.extend_from_slice(program)?;
        Ok(Turn::free(Ok(None)))
    }

    // The states that there were stay right, and one that waited may go on.
    pub fn give(&mut self, numbers: &[u32]) -> Result<Turn, AllocError>
        ensures { IfOk result (λ t. (w : Plain) → Kept self.old w → Turns t self.new w (given numbers.now)) }
    {
        if self.fed.len().saturating_add(numbers.len()) > MOST_FED {
            return Ok(Turn::free(Err(Refusal::Full)));
        }
        self.fed.extend_from_slice(numbers)?;
        Ok(Turn::free(Ok(None)))
    }
}
