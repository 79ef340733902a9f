// What an instruction needs to be done, or why it is not done. A step goes by these, and so does the reason why there is none.
ghost use Rattle.std.specs.Prelude.{◌≡◌, ◌+◌, ◌<◌, ◌≤◌, ◌⊎◌, [], ◌∷◌, length, MatchResult, slice_index, slice_index_or};
ghost use Rattle.command.specs.Machine.{reckoned as comes_to};
ghost use Rattle.command.specs.Codes.{op_number};

use crate::arith::apply;
use crate::state::State;
use command::code::{Instr, Op, Reg};
use target::answers::Why;

// The place of the word at a number, if there is one: there are 65,536.
fn there(number: u64) -> Result<u16, Why>
    ensures { MatchResult result (λ a. (a ≡ number) × (number < 65536)) (λ y. (y ≡ Why.NoWord) × (65536 ≤ number)) }
{
    u16::try_from(number).map_err(|_| Why::NoWord)
}

impl State {
    pub(crate) fn instr(&self, program: &[Instr]) -> Result<Instr, Why>
        ensures { MatchResult result (λ i. (self.now.at < length program.now) × ((d : _) → i ≡ slice_index_or program.now self.now.at d)) (λ y. (y ≡ Why.NoInstr) × (length program.now ≤ self.now.at)) }
    {
        program.get(self.at as usize).copied().ok_or(Why::NoInstr)
    }

    pub(crate) fn reckoned(&self, op: Op, k: Reg, j: Reg) -> Result<u32, Why>
        ensures { MatchResult result (λ v. v ∷ [] ≡ comes_to (op_number op) (slice_index self.now.regs k.number) (slice_index self.now.regs j.number)) (λ y. (y ≡ Why.ByZero) × ([] ≡ comes_to (op_number op) (slice_index self.now.regs k.number) (slice_index self.now.regs j.number))) }
    {
        apply(
            op,
            self.regs[k.number as usize],
            self.regs[j.number as usize],
        )
        .ok_or(Why::ByZero)
    }

    // Reading a word and writing it want the same.
    pub(crate) fn word_place(&self, j: Reg, n: u16) -> Result<u16, Why>
        ensures { MatchResult result (λ a. (a ≡ slice_index self.now.regs j.number + n) × (a < 65536)) (λ y. (y ≡ Why.NoWord) × (65536 ≤ slice_index self.now.regs j.number + n)) }
    {
        there(u64::from(self.regs[j.number as usize]) + u64::from(n))
    }

    // Where a call leaves the place to return to.
    pub(crate) fn call_place(&self) -> Result<u16, Why>
        ensures { MatchResult result (λ a. (a + 1 ≡ slice_index self.now.regs 15) × (a < 65536)) (λ y. (y ≡ Why.NoWord) × ((slice_index self.now.regs 15 ≡ 0) ⊎ (65536 < slice_index self.now.regs 15))) }
    {
        let top = self.regs[15].checked_sub(1).ok_or(Why::NoWord)?;
        there(u64::from(top))
    }

    pub(crate) fn return_place(&self) -> Result<u16, Why>
        ensures { MatchResult result (λ a. (a ≡ slice_index self.now.regs 15) × (a < 65536)) (λ y. (y ≡ Why.NoWord) × (65536 ≤ slice_index self.now.regs 15)) }
    {
        there(u64::from(self.regs[15]))
    }

    // The next number that came in.
    pub(crate) fn incoming(&self, fed: &[u32]) -> Result<u32, Why>
        ensures { MatchResult result (λ v. (self.now.taken < length fed.now) × (v ≡ slice_index fed.now self.now.taken)) (λ y. (y ≡ Why.Waits) × (length fed.now ≤ self.now.taken)) }
    {
        fed.get(self.taken).copied().ok_or(Why::Waits)
    }
}
