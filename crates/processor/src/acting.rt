// The emulator as a processor: each act that the debugger may ask for.
ghost use Rattle.std.specs.Prelude.{◌≡◌, ◌<◌, ◌≤◌, length, MatchResult};
ghost use Rattle.processor.specs.Holding.{Held, room_of};

use crate::emulator::Emulator;
use crate::making::make_room;
use crate::telling::{tell_outs, tell_words};
use command::breaks::Break;
use command::code::Instr;
use target::answers::{Came, Fault, Spot};
use target::processor::Processor;

const MOST_INSTRUCTIONS: usize = 4096;

const MOST_BREAKS: usize = 64;

const MOST_NUMBERS: usize = 4096;

fn slot_numbered(number: u64) -> Result<u8, Fault>
    ensures { MatchResult result (λ slot. slot ≡ number) (λ fault. (fault ≡ Fault.NoSuchSlot) × (256 ≤ number)) }
{
    u8::try_from(number).map_err(|_| Fault::NoSuchSlot)
}

// So many numbers may be asked for at once.
fn few(seen: &[u64]) -> Result<(), Fault>
    ensures { MatchResult result (λ _. length seen.now ≤ 4096) (λ fault. (fault ≡ Fault.TooManyNumbers) × (4096 < length seen.now)) }
{
    if seen.len() > MOST_NUMBERS {
        return Err(Fault::TooManyNumbers);
    }
    Ok(())
}

impl Processor for Emulator {
    ghost like = { λ e t. Held e t };

    ghost room = { λ e. room_of e };

    // The limits of a program and of breaks have each a fault of its own, so each is an `if`.
    fn begin(&mut self, program: &[Instr]) -> Result<(), Fault> {
        if program.len() > MOST_INSTRUCTIONS {
            return Err(Fault::TooLong);
        }
        self.program.clear();
        // There is room for the longest program.
        let _ = self.program.extend_from_slice(program);
        self.fed.clear();
        self.state.restart();
        self.state.words.clear();
        self.slots.fill(None);
        Ok(())
    }

    fn feed(&mut self, more: &[u32]) -> Result<(), Fault> {
        self.fed.extend_from_slice(more).or(Err(Fault::NoMemory))
    }

    fn goes(&mut self, n: u64, breaks: &[Break]) -> Result<Came, Fault> {
        if breaks.len() > MOST_BREAKS {
            return Err(Fault::TooManyBreaks);
        }
        let put = self.state.put;
        make_room(&mut self.state.log, put, n)?;
        Ok(
            self.state
                .goes(self.program.as_slice(), self.fed.as_slice(), breaks, n),
        )
    }

    fn keep(&mut self, slot: u64) -> Result<(), Fault> {
        let slot = slot_numbered(slot)?;
        self.state.words.keep(slot);
        let kept = self.state.kept();
        self.slots[slot as usize] = Some(kept);
        Ok(())
    }

    fn take_up(&mut self, slot: u64) -> Result<(), Fault> {
        let slot = slot_numbered(slot)?;
        let kept = self.slots[slot as usize].ok_or(Fault::EmptySlot)?;
        self.state.words.take_up(slot);
        self.state.resume(kept);
        Ok(())
    }

    fn registers(&self) -> [u32; 16] {
        self.state.regs
    }

    fn words(&self, from: u64, seen: &mut [u64]) -> Result<(), Fault> {
        few(seen)?;
        tell_words(self.state.words.items.as_slice(), from, seen);
        Ok(())
    }

    fn outs(&self, from: u64, seen: &mut [u64]) -> Result<usize, Fault> {
        few(seen)?;
        Ok(tell_outs(self.state.log.as_slice(), self.state.put, from, seen))
    }

    fn spot(&self) -> Spot {
        let why = self
            .state
            .why_not(self.program.as_slice(), self.fed.as_slice());
        Spot {
            at: self.state.at,
            why,
        }
    }
}
