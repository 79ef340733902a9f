// A processor with its program, how far it has gone, and how much has come in.
ghost use Rattle.std.specs.Prelude.{◌≡◌, IfOk};
ghost use Rattle.session.specs.declared.debugger.Refusal.TheVariants as refusal;
ghost use Rattle.target.specs.Acts.{TellsRegs, TellsSpot};
ghost use Rattle.session.specs.Does.{Strode, Forwards, Loads, Gives, SeenWords, SeenOuts};

use checkpoints::stride;
use command::code::Instr;
use std::alloc::{AllocError, Global};
use target::answers::{Fault, Spot};
use target::processor::Processor;

const WORDS: u64 = 65_536;

const MOST_FED: usize = 65_536;

#[derive(Drop)]
pub struct Session<P> {
    processor: P,
    // Steps since the program began.
    time: u64,
    // How many numbers have come in.
    fed: usize,
}

// Where the processor is, and when.
#[derive(Clone, Copy, Debug, PartialEq, Eq)]
pub struct Place {
    pub time: u64,
    pub spot: Spot,
}

// Why a command was not carried out.
#[derive(Clone, Copy, Debug, PartialEq, Eq)]
pub enum Refusal {
    // Too many numbers would have come in: so many have.
    Full(usize),
    Fault(Fault),
    NoMemory,
}

impl From<Fault> for Refusal {
    ghost from_gives = { λ fault r. r ≡ refusal.Fault fault };

    fn from(fault: Fault) -> Refusal {
        Refusal::Fault(fault)
    }
}

impl From<AllocError> for Refusal {
    ghost from_gives = { λ error r. r ≡ refusal.NoMemory };

    fn from(_error: AllocError) -> Refusal {
        Refusal::NoMemory
    }
}

impl<P: Processor> Session<P> {
    pub fn new(processor: P) -> Session<P>
        ensures { (result.processor ≡ processor) × (result.time ≡ 0) × (result.fed ≡ 0) }
    {
        Session {
            processor,
            time: 0,
            fed: 0,
        }
    }

    // Begins anew with a program.
    pub fn load(&mut self, program: &[Instr]) -> Result<(), Refusal>
        ensures { Loads program.now (P.like self.old.processor) (P.like self.new.processor) self.old.time self.new.time self.old.fed self.new.fed result }
    {
        self.processor.begin(program)?;
        self.time = 0;
        self.fed = 0;
        Ok(())
    }

    // So much more comes in.
    pub fn give(&mut self, more: &[u32]) -> Result<(), Refusal>
        ensures given { Gives more.now (P.like self.old.processor) (P.like self.new.processor) self.old.fed self.new.fed result }
        ensures time { self.new.time ≡ self.old.time }
    {
        if self.fed.saturating_add(more.len()) > MOST_FED {
            return Err(Refusal::Full(self.fed));
        }
        self.processor.feed(more)?;
        self.fed += more.len();
        Ok(())
    }

    // Goes on by one stride, as far as it goes, and answers by how many steps.
    fn go(&mut self, left: u64) -> Result<u64, Refusal>
        ensures { Strode left (P.like self.old.processor) (P.like self.new.processor) self.old.time self.new.time result }
    {
        let most = stride(self.time, left);
        let came = self.processor.goes(most, &[])?;
        // No processor goes further than it is told, but nothing is known of one that is like no target.
        let by = came.by.min(most);
        self.time = self.time.saturating_add(by);
        Ok(by)
    }

    // Goes on by at most `n` steps, as far as it goes, and answers by how many. Where the processor fails, it stays where it came to.
    pub fn forward(&mut self, n: u64) -> Result<u64, Refusal>
        ensures { Forwards n (P.like self.old.processor) (P.like self.new.processor) self.old.time self.new.time result }
    {
        let mut left = n;
        while left > 0 {
            let by = self.go(left)?;
            if by == 0 {
                return Ok(n - left);
            }
            left -= by;
        }
        Ok(n)
    }

    pub fn place(&self) -> Place
        ensures { (result.time ≡ self.now.time) × TellsSpot (P.like self.now.processor) result.spot }
    {
        Place {
            time: self.time,
            spot: self.processor.spot(),
        }
    }

    pub fn registers(&self) -> [u32; 16]
        ensures { TellsRegs (P.like self.now.processor) result }
    {
        self.processor.registers()
    }

    // The words from an address on, as far as there are any.
    pub fn words(&self, heap: Global, from: u64, count: u64) -> Result<Vec<u64>, Refusal>
        ensures { IfOk result (λ v. SeenWords from count (P.like self.now.processor) v.items) }
    {
        let shown = count.min(WORDS.saturating_sub(from));
        let mut seen = vec![in heap; 0; shown as usize]?;
        self.processor.words(from, seen.as_mut_slice())?;
        Ok(seen)
    }

    // What went out, from the given one on, no more than so many.
    pub fn outs(&self, heap: Global, from: u64, count: u64) -> Result<Vec<u64>, Refusal>
        ensures { IfOk result (λ v. SeenOuts from count (P.like self.now.processor) v.items) }
    {
        let mut seen = vec![in heap; 0; count as usize]?;
        let shown = self.processor.outs(from, seen.as_mut_slice())?;
        seen.truncate(shown);
        Ok(seen)
    }
}
