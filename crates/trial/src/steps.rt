// One step of the processor: the moment that comes next, or why there is none.
ghost use Rattle.std.specs.Prelude.{◌≡◌, ℕ, ◌+◌, ◌<◌, ◌≤◌, List, length, MatchResult, slice_index};
ghost use Rattle.command.specs.Machine.{State as Model, does as made_of, step as stepped, reckon, read, write, jump_if, call, return, take_in, put_out};
ghost use Rattle.command.specs.Codes.{code, codes, op_number, comparison_number};
ghost use Rattle.trial.specs.Moments.{At, Words, Came, Next, first_moment, moved_to, set_reg};
ghost use Rattle.trial.specs.declared.moments.Why.TheVariants.{NoWord};

use crate::arith::{compares, reckoned};
use crate::memory::{Memory, place_of};
use crate::moments::{Moment, Why, Written};
use command::code::{Comparison, Instr, Op, Reg};

impl Moment {
    // The beginning.
    pub(crate) fn first() -> Moment
        ensures { result ≡ first_moment }
    {
        Moment {
            at: 0,
            regs: [0; 16],
            taken: 0,
            written: None,
            out: None,
        }
    }

    fn reg(&self, k: Reg) -> u32
        ensures { result ≡ slice_index self.now.regs k.number }
    {
        self.regs[k.number as usize]
    }

    // Somewhere else, with nothing else done.
    fn gone_to(&self, place: u32) -> Moment
        ensures { result ≡ moved_to self.now place }
    {
        Moment {
            at: place,
            written: None,
            out: None,
            ..*self
        }
    }

    // What one step makes of this moment.
    pub(crate) fn next(
        &self,
        program: &[Instr],
        fed: &[u32],
        memory: &Memory,
    ) -> Result<Moment, Why>
        requires { length program.now ≤ 4096 }
        ensures { (s : Model) → At self.now s → Words memory.now.words.items s → Next result s (stepped (codes program.now) fed.now s) }
    {
        let instr = program.get(self.at as usize).ok_or(Why::NoInstr)?;
        let here = Here {
            moment: self,
            fed,
            memory,
        };
        here.does(*instr)
    }
}

// A moment at an instruction, and what its step may look at.
#[derive(Clone, Copy)]
struct Here<'a> {
    moment: &'a Moment,
    fed: &'a [u32],
    memory: &'a Memory,
    ghost place: { moment.now.at < 4096 },
}

impl<'a> Here<'a> {
    fn with_reg(&self, k: Reg, v: u32) -> Moment
        ensures { result ≡ set_reg self.now.moment.now k.number v }
    {
        let mut next = self.moment.gone_to(self.moment.at + 1);
        next.regs[k.number as usize] = v;
        next
    }

    fn reckons(&self, op: Op, k: Reg, j: Reg) -> Result<Moment, Why>
        ensures { (s : Model) (ins : List ℕ) → At self.now.moment.now s → Next result s (made_of s ins (reckon (op_number op) k.number j.number)) }
    {
        let v = reckoned(op, self.moment.reg(k), self.moment.reg(j)).ok_or(Why::ByZero)?;
        Ok(self.with_reg(k, v))
    }

    // The place of the word at a register and a number.
    fn word_at(&self, base: Reg, n: u16) -> Result<u16, Why>
        ensures { MatchResult result (λ place. (place ≡ slice_index self.now.moment.now.regs base.number + n) × (place < 65536)) (λ why. (why ≡ NoWord) × (65536 ≤ slice_index self.now.moment.now.regs base.number + n)) }
    {
        place_of(u64::from(self.moment.reg(base)) + u64::from(n))
    }

    fn reads(&self, k: Reg, base: Reg, n: u16) -> Result<Moment, Why>
        ensures { (s : Model) (ins : List ℕ) → At self.now.moment.now s → Words self.now.memory.now.words.items s → Next result s (made_of s ins (read k.number base.number n)) }
    {
        let place = self.word_at(base, n)?;
        Ok(self.with_reg(k, self.memory.get(place)))
    }

    fn writes(&self, k: Reg, base: Reg, n: u16) -> Result<Moment, Why>
        ensures { (s : Model) (ins : List ℕ) → At self.now.moment.now s → Words self.now.memory.now.words.items s → Next result s (made_of s ins (write k.number base.number n)) }
    {
        let place = self.word_at(base, n)?;
        let mut next = self.moment.gone_to(self.moment.at + 1);
        next.written = Some(Written {
            place,
            before: self.memory.get(place),
            after: self.moment.reg(k),
        });
        Ok(next)
    }

    fn jumps_if(&self, comparison: Comparison, k: Reg, j: Reg, n: u16) -> Moment
        ensures { (s : Model) (ins : List ℕ) → At self.now.moment.now s → Came result s (made_of s ins (jump_if (comparison_number comparison) k.number j.number n)) }
    {
        if compares(comparison, self.moment.reg(k), self.moment.reg(j)) {
            self.moment.gone_to(u32::from(n))
        } else {
            self.moment.gone_to(self.moment.at + 1)
        }
    }

    // Register 15 goes down by 1, and the word there is where to go back.
    fn calls(&self, n: u16) -> Result<Moment, Why>
        ensures { (s : Model) (ins : List ℕ) → At self.now.moment.now s → Words self.now.memory.now.words.items s → Next result s (made_of s ins (call n)) }
    {
        let top = self.moment.regs[15].checked_sub(1).ok_or(Why::NoWord)?;
        let place = place_of(u64::from(top))?;
        let mut next = self.moment.gone_to(u32::from(n));
        next.regs[15] = top;
        next.written = Some(Written {
            place,
            before: self.memory.get(place),
            after: self.moment.at + 1,
        });
        Ok(next)
    }

    fn returns(&self) -> Result<Moment, Why>
        ensures { (s : Model) (ins : List ℕ) → At self.now.moment.now s → Words self.now.memory.now.words.items s → Next result s (made_of s ins return) }
    {
        let top = self.moment.regs[15];
        let place = place_of(u64::from(top))?;
        let mut next = self.moment.gone_to(self.memory.get(place));
        next.regs[15] = top + 1;
        Ok(next)
    }

    fn takes_in(&self, k: Reg) -> Result<Moment, Why>
        ensures { (s : Model) → At self.now.moment.now s → Next result s (made_of s self.now.fed.now (take_in k.number)) }
    {
        let v = *self.fed.get(self.moment.taken).ok_or(Why::Waits)?;
        let mut next = self.with_reg(k, v);
        next.taken += 1;
        Ok(next)
    }

    fn puts_out(&self, k: Reg) -> Moment
        ensures { (s : Model) (ins : List ℕ) → At self.now.moment.now s → Came result s (made_of s ins (put_out k.number)) }
    {
        let mut next = self.moment.gone_to(self.moment.at + 1);
        next.out = Some(self.moment.reg(k));
        next
    }

    fn does(&self, i: Instr) -> Result<Moment, Why>
        ensures { (s : Model) → At self.now.moment.now s → Words self.now.memory.now.words.items s → Next result s (made_of s self.now.fed.now (code i)) }
    {
        match i {
            Instr::Load(k, n) => Ok(self.with_reg(k, n)),
            Instr::Copied(k, j) => Ok(self.with_reg(k, self.moment.reg(j))),
            Instr::Reckon(op, k, j) => self.reckons(op, k, j),
            Instr::Read(k, base, n) => self.reads(k, base, n),
            Instr::Write(k, base, n) => self.writes(k, base, n),
            Instr::Jump(n) => Ok(self.moment.gone_to(u32::from(n))),
            Instr::JumpIf(comparison, k, j, n) => Ok(self.jumps_if(comparison, k, j, n)),
            Instr::Call(n) => self.calls(n),
            Instr::Return => self.returns(),
            Instr::In(k) => self.takes_in(k),
            Instr::Out(k) => Ok(self.puts_out(k)),
            Instr::Halt => Err(Why::Halted),
        }
    }
}
