// One instruction of a line: its mnemonic and its operands.
ghost use Rattle.std.specs.Prelude.{◌≡◌, ℕ, ◌<◌, IfOk};
ghost use Rattle.std.specs.Option.{option_map};
ghost use Rattle.command.specs.Codes.{op_number, comparison_number, code};
ghost use Rattle.command.specs.Machine.{Instr as InstrMeant};
ghost use Rattle.assembler.specs.Words.{separated, number_below};
ghost use Rattle.assembler.specs.Reading.{Took, itself, left, a_word};
ghost use Rattle.assembler.specs.Instructions.{reg_number, comparison_of, labels_of, register_named, place_named, register, next_register, place, operation, comparison, below, mnemonic, load_operands, copy_operands, reckon_operands, word_operands, jump_if_operands, jump_operands, operands, instruction};

use crate::cursor::Cursor;
use crate::labels::{Label, place_of};
use crate::mistakes::Expected;
use crate::names::{Mnemonic, comparison_named, is_word, mnemonic_named, op_named};
use crate::words::{behind, is_name, number_below, split_word};
use command::code::{Comparison, Instr, Op, Reg};

const NUMBERS: u64 = 4_294_967_296;

const PLACES: u64 = 65_536;

const REGISTERS: u64 = 16;

// The register that a word names, by its number alone or after an r.
fn register_named(word: &[u8]) -> Option<Reg>
    ensures { option_map reg_number result ≡ register_named word.now }
{
    let digits = behind(word, b'r').unwrap_or(word);
    let number = number_below(digits, REGISTERS)?;
    Some(Reg {
        number: number as u8,
    })
}

// The place that a word says by a label or by a number.
fn place_named(word: &[u8], labels: &[Label]) -> Result<u16, Expected>
    ensures { result ≡ place_named (labels_of labels.now) word.now }
{
    if is_name(word) {
        return place_of(labels, word).ok_or(Expected::KnownLabel);
    }
    let number = number_below(word, PLACES).ok_or(Expected::Place)?;
    Ok(number as u16)
}

impl Cursor<'_> {
    fn register(&mut self) -> Result<Reg, Expected>
        ensures { Took reg_number (register (left self.old)) result (left self.new) }
    {
        self.take_word(|word| register_named(word).ok_or(Expected::Register))
    }

    // One more register, after a separator.
    fn next_register(&mut self) -> Result<Reg, Expected>
        ensures { Took reg_number (next_register (left self.old)) result (left self.new) }
    {
        self.skip_separator();
        self.register()
    }

    // A number below a limit, after a separator.
    fn next_below(&mut self, limit: u64, expected: Expected) -> Result<u64, Expected>
        requires { 0 < limit }
        ensures value { Took itself (a_word expected (number_below limit) (separated (left self.old))) result (left self.new) }
        ensures bound { IfOk result (λ n. n < limit) }
    {
        self.skip_separator();
        self.take_word(|word| number_below(word, limit).ok_or(expected))
    }

    fn place(&mut self, labels: &[Label]) -> Result<u16, Expected>
        ensures { Took itself (place (labels_of labels.now) (left self.old)) result (left self.new) }
    {
        self.take_word(|word| place_named(word, labels))
    }

    fn next_place(&mut self, labels: &[Label]) -> Result<u16, Expected>
        ensures { Took itself (place (labels_of labels.now) (separated (left self.old))) result (left self.new) }
    {
        self.skip_separator();
        self.place(labels)
    }

    fn op(&mut self) -> Result<Op, Expected>
        ensures { Took op_number (operation (left self.old)) result (left self.new) }
    {
        self.take_word(|word| op_named(word).ok_or(Expected::Operation))
    }

    // The comparison of a jump, if it is a jump on a condition.
    fn comparison(&mut self) -> Result<Option<Comparison>, Expected>
        ensures { Took comparison_of (comparison (left self.old)) result (left self.new) }
    {
        let (word, rest) = split_word(self.rest);
        if is_word(word, b"not") {
            self.rest = rest;
            self.skip_blanks();
            return self.below();
        }
        let comparison = comparison_named(word);
        if comparison.is_some() {
            self.rest = rest;
        }
        Ok(comparison)
    }

    // The second word of `not below`.
    fn below(&mut self) -> Result<Option<Comparison>, Expected>
        ensures { Took comparison_of (below (left self.old)) result (left self.new) }
    {
        self.take_word(|word| match is_word(word, b"below") {
            true => Ok(Some(Comparison::NotLess)),
            false => Err(Expected::Below),
        })
    }

    fn mnemonic(&mut self) -> Result<Mnemonic, Expected>
        ensures { Took itself (mnemonic (left self.old)) result (left self.new) }
    {
        self.take_word(|word| mnemonic_named(word).ok_or(Expected::Mnemonic))
    }

    fn load(&mut self) -> Result<Instr, Expected>
        ensures { Took code (load_operands (left self.old)) result (left self.new) }
    {
        let to = self.register()?;
        let number = self.next_below(NUMBERS, Expected::Number)?;
        Ok(Instr::Load(to, number as u32))
    }

    fn copied(&mut self) -> Result<Instr, Expected>
        ensures { Took code (copy_operands (left self.old)) result (left self.new) }
    {
        let to = self.register()?;
        let from = self.next_register()?;
        Ok(Instr::Copied(to, from))
    }

    fn reckon(&mut self) -> Result<Instr, Expected>
        ensures { Took code (reckon_operands (left self.old)) result (left self.new) }
    {
        let op = self.op()?;
        self.skip_blanks();
        let to = self.register()?;
        let by = self.next_register()?;
        Ok(Instr::Reckon(op, to, by))
    }

    // A register, and the word that a register and an offset name.
    fn word_operands(&mut self) -> Result<(Reg, Reg, u16), Expected>
        ensures { (f : ℕ → ℕ → ℕ → InstrMeant) → Took (λ p. f (reg_number p.0) (reg_number p.1) p.2) (word_operands f (left self.old)) result (left self.new) }
    {
        let register = self.register()?;
        let base = self.next_register()?;
        let offset = self.next_below(PLACES, Expected::Offset)?;
        Ok((register, base, offset as u16))
    }

    fn jump(&mut self, labels: &[Label]) -> Result<Instr, Expected>
        ensures { Took code (jump_operands (labels_of labels.now) (left self.old)) result (left self.new) }
    {
        match self.comparison()? {
            Some(comparison) => self.jump_if(comparison, labels),
            None => Ok(Instr::Jump(self.place(labels)?)),
        }
    }

    fn jump_if(&mut self, comparison: Comparison, labels: &[Label]) -> Result<Instr, Expected>
        ensures { Took code (jump_if_operands (labels_of labels.now) (comparison_number comparison) (left self.old)) result (left self.new) }
    {
        self.skip_blanks();
        let first = self.register()?;
        let second = self.next_register()?;
        let place = self.next_place(labels)?;
        Ok(Instr::JumpIf(comparison, first, second, place))
    }

    // What follows a mnemonic.
    fn operands(&mut self, mnemonic: Mnemonic, labels: &[Label]) -> Result<Instr, Expected>
        ensures { Took code (operands (labels_of labels.now) mnemonic (left self.old)) result (left self.new) }
    {
        match mnemonic {
            Mnemonic::Load => self.load(),
            Mnemonic::Copied => self.copied(),
            Mnemonic::Reckon => self.reckon(),
            Mnemonic::Read => {
                let (to, base, offset) = self.word_operands()?;
                Ok(Instr::Read(to, base, offset))
            }
            Mnemonic::Write => {
                let (from, base, offset) = self.word_operands()?;
                Ok(Instr::Write(from, base, offset))
            }
            Mnemonic::Jump => self.jump(labels),
            Mnemonic::Call => Ok(Instr::Call(self.place(labels)?)),
            Mnemonic::Return => Ok(Instr::Return),
            Mnemonic::In => Ok(Instr::In(self.register()?)),
            Mnemonic::Out => Ok(Instr::Out(self.register()?)),
            Mnemonic::Halt => Ok(Instr::Halt),
        }
    }

    // The one instruction that is left, up to the end of the line.
    pub(crate) fn instruction(&mut self, labels: &[Label]) -> Result<Instr, Expected>
        ensures { Took code (instruction (labels_of labels.now) (left self.old)) result (left self.new) }
    {
        let mnemonic = self.mnemonic()?;
        self.skip_blanks();
        let instr = self.operands(mnemonic, labels)?;
        self.end()?;
        Ok(instr)
    }
}
