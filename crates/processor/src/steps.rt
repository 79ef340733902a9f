// One step of the processor: a method for each instruction that does more than set a field.
ghost use Rattle.std.specs.Prelude.{◌≡◌, ℕ, ◌<◌, ◌≤◌, List, [], ◌∷◌, ◌++◌, None, length, vec_capacity};
ghost use Rattle.command.specs.Machine.{State as Model, does as made_of, step as stepped, compared, reckon, read, write, jump_if, call, return, take_in, put_out, with_reg};
ghost use Rattle.command.specs.Codes.{code, codes, op_number, comparison_number};
ghost use Rattle.processor.specs.Like.{Base, Like, Ready, After, OnTo, Room, laid};

use crate::state::State;
use crate::writing::Overwritten;
use command::code::{Comparison, Instr, Op, Reg};
use target::answers::Why;

// What came of a step: it went on, perhaps writing a word; or why not.
pub(crate) type Went = Result<Option<Overwritten>, Why>;

pub(crate) fn compare(comparison: Comparison, a: u32, b: u32) -> bool
    ensures { result ≡ compared (comparison_number comparison) a b }
{
    match comparison {
        Comparison::Equal => a == b,
        Comparison::Unequal => a != b,
        Comparison::Less => a < b,
        Comparison::NotLess => a >= b,
    }
}

// The log with one number more laid over it. No step may want memory, so room is taken before, as much as one stride may use up.
fn lay(log: &mut Vec<u32>, put: usize, v: u32)
    requires room { put < vec_capacity log.old }
    ensures laid { (out base : List ℕ) → log.old.items ≡ laid out base → length out ≡ put → log.new.items ≡ laid (out ++ v ∷ []) base }
    ensures room { vec_capacity log.old ≤ vec_capacity log.new }
{
    if put < log.len() {
        log[put] = v;
    } else {
        // There is room for it.
        let _ = log.push(v);
    }
}

// `next` is the place that follows.
impl State {
    fn with_reg(&mut self, next: u32, k: Reg, v: u32)
        ensures on { (b : Base) (s : Model) → Ready b self.old next s → OnTo b self.new None s (with_reg s k.number v) }
        ensures room { Room self.old self.new }
    {
        self.regs[k.number as usize] = v;
        self.at = next;
    }

    fn reckons(&mut self, next: u32, op: Op, k: Reg, j: Reg) -> Went
        ensures after { (b : Base) (s : Model) (ins : List ℕ) → Ready b self.old next s → After b self.new result s (made_of s ins (reckon (op_number op) k.number j.number)) }
        ensures room { Room self.old self.new }
    {
        let v = self.reckoned(op, k, j)?;
        self.with_reg(next, k, v);
        Ok(None)
    }

    fn reads(&mut self, next: u32, k: Reg, from: Reg, n: u16) -> Went
        ensures after { (b : Base) (s : Model) (ins : List ℕ) → Ready b self.old next s → After b self.new result s (made_of s ins (read k.number from.number n)) }
        ensures room { Room self.old self.new }
    {
        let a = self.word_place(from, n)?;
        let v = self.words.get(a);
        self.with_reg(next, k, v);
        Ok(None)
    }

    fn writes(&mut self, next: u32, k: Reg, to: Reg, n: u16) -> Went
        ensures after { (b : Base) (s : Model) (ins : List ℕ) → Ready b self.old next s → After b self.new result s (made_of s ins (write k.number to.number n)) }
        ensures room { Room self.old self.new }
    {
        let place = self.word_place(to, n)?;
        let word = self.words.put(place, self.regs[k.number as usize]);
        self.at = next;
        Ok(Some(word))
    }

    fn jumps_if(&mut self, next: u32, comparison: Comparison, k: Reg, j: Reg, n: u16) -> Went
        ensures after { (b : Base) (s : Model) (ins : List ℕ) → Ready b self.old next s → After b self.new result s (made_of s ins (jump_if (comparison_number comparison) k.number j.number n)) }
        ensures room { Room self.old self.new }
    {
        if compare(
            comparison,
            self.regs[k.number as usize],
            self.regs[j.number as usize],
        ) {
            self.at = u32::from(n);
        } else {
            self.at = next;
        }
        Ok(None)
    }

    fn calls(&mut self, next: u32, k: u16) -> Went
        ensures after { (b : Base) (s : Model) (ins : List ℕ) → Ready b self.old next s → After b self.new result s (made_of s ins (call k)) }
        ensures room { Room self.old self.new }
    {
        let place = self.call_place()?;
        let word = self.words.put(place, next);
        self.regs[15] = u32::from(place);
        self.at = u32::from(k);
        Ok(Some(word))
    }

    fn returns(&mut self) -> Went
        ensures after { (b : Base) (s : Model) (ins : List ℕ) → Like b self.old s → After b self.new result s (made_of s ins (return)) }
        ensures room { Room self.old self.new }
    {
        let a = self.return_place()?;
        self.at = self.words.get(a);
        self.regs[15] = u32::from(a) + 1;
        Ok(None)
    }

    fn takes_in(&mut self, next: u32, k: Reg, fed: &[u32]) -> Went
        ensures after { (b : Base) (s : Model) → Ready b self.old next s → After b self.new result s (made_of s fed.now (take_in k.number)) }
        ensures room { Room self.old self.new }
    {
        let v = self.incoming(fed)?;
        self.taken += 1;
        self.regs[k.number as usize] = v;
        self.at = next;
        Ok(None)
    }

    fn puts_out(&mut self, next: u32, k: Reg) -> Went
        requires room { self.old.put < vec_capacity self.old.log }
        ensures after { (b : Base) (s : Model) (ins : List ℕ) → Ready b self.old next s → After b self.new result s (made_of s ins (put_out k.number)) }
        ensures room { Room self.old self.new }
    {
        let v = self.regs[k.number as usize];
        lay(&mut self.log, self.put, v);
        self.put += 1;
        self.at = next;
        Ok(None)
    }

    fn does(&mut self, next: u32, i: Instr, fed: &[u32]) -> Went
        requires room { self.old.put < vec_capacity self.old.log }
        ensures after { (b : Base) (s : Model) → Ready b self.old next s → After b self.new result s (made_of s fed.now (code i)) }
        ensures room { Room self.old self.new }
    {
        match i {
            Instr::Load(k, n) => {
                self.with_reg(next, k, n);
                Ok(None)
            }
            Instr::Copied(k, j) => {
                let v = self.regs[j.number as usize];
                self.with_reg(next, k, v);
                Ok(None)
            }
            Instr::Reckon(op, k, j) => self.reckons(next, op, k, j),
            Instr::Read(k, from, n) => self.reads(next, k, from, n),
            Instr::Write(k, to, n) => self.writes(next, k, to, n),
            Instr::Jump(n) => {
                self.at = u32::from(n);
                Ok(None)
            }
            Instr::JumpIf(comparison, k, j, n) => self.jumps_if(next, comparison, k, j, n),
            Instr::Call(n) => self.calls(next, n),
            Instr::Return => self.returns(),
            Instr::In(k) => self.takes_in(next, k, fed),
            Instr::Out(k) => self.puts_out(next, k),
            Instr::Halt => Err(Why::Halted),
        }
    }

    pub(crate) fn step(&mut self, program: &[Instr], fed: &[u32]) -> Went
        requires program { length program.now ≤ 4096 }
        requires room { self.old.put < vec_capacity self.old.log }
        ensures after { (b : Base) (s : Model) → Like b self.old s → After b self.new result s (stepped (codes program.now) fed.now s) }
        ensures room { Room self.old self.new }
    {
        let i = self.instr(program)?;
        self.does(self.at + 1, i, fed)
    }
}
