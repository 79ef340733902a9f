// The names of instructions, operations and comparisons.
ghost use Rattle.std.specs.Prelude.{◌≡◌};
ghost use Rattle.std.specs.Option.{option_map};
ghost use Rattle.std.specs.Str.{bytes_eq};
ghost use Rattle.command.specs.Codes.{op_number, comparison_number};
ghost use Rattle.assembler.specs.Names.{mnemonic_name, mnemonic_named, op_named, op_name, comparison_named, comparison_name};

use command::code::{Comparison, Op};

#[derive(Clone, Copy, Debug, PartialEq, Eq)]
pub(crate) enum Mnemonic {
    Load,
    Copied,
    Reckon,
    Read,
    Write,
    Jump,
    Call,
    Return,
    In,
    Out,
    Halt,
}

const MNEMONICS: [Mnemonic; 11] = [
    Mnemonic::Load,
    Mnemonic::Copied,
    Mnemonic::Reckon,
    Mnemonic::Read,
    Mnemonic::Write,
    Mnemonic::Jump,
    Mnemonic::Call,
    Mnemonic::Return,
    Mnemonic::In,
    Mnemonic::Out,
    Mnemonic::Halt,
];

const OPS: [Op; 10] = [
    Op::Sum,
    Op::Difference,
    Op::Product,
    Op::Quotient,
    Op::Remainder,
    Op::And,
    Op::Or,
    Op::Either,
    Op::Left,
    Op::Right,
];

// The comparisons of one word: `not below` has two.
const COMPARISONS: [Comparison; 3] = [Comparison::Equal, Comparison::Unequal, Comparison::Less];

// A word is a name: `==`, with its answer in the words of the definitions.
pub(crate) fn is_word(word: &[u8], name: &[u8]) -> bool
    ensures { result ≡ bytes_eq word.now name.now }
{
    word == name
}

// Names are text that lasts, not a Display: words are compared with them.
fn mnemonic_name(mnemonic: Mnemonic) -> &'static str
    ensures { result.now ≡ mnemonic_name mnemonic }
{
    match mnemonic {
        Mnemonic::Load => "load",
        Mnemonic::Copied => "copy",
        Mnemonic::Reckon => "reckon",
        Mnemonic::Read => "read",
        Mnemonic::Write => "write",
        Mnemonic::Jump => "jump",
        Mnemonic::Call => "call",
        Mnemonic::Return => "return",
        Mnemonic::In => "in",
        Mnemonic::Out => "out",
        Mnemonic::Halt => "halt",
    }
}

// Three searches over tables: a generic one would take a closure whose bound names a lifetime, which the borrow checker does not cover.
pub(crate) fn mnemonic_named(word: &[u8]) -> Option<Mnemonic>
    ensures { result ≡ mnemonic_named word.now }
{
    let named = MNEMONICS
        .iter()
        .find(|x| is_word(word, mnemonic_name(**x).as_bytes()));
    named.copied()
}

pub(crate) fn op_name(op: Op) -> &'static str
    ensures { result.now ≡ op_name (op_number op) }
{
    match op {
        Op::Sum => "sum",
        Op::Difference => "difference",
        Op::Product => "product",
        Op::Quotient => "quotient",
        Op::Remainder => "remainder",
        Op::And => "and",
        Op::Or => "or",
        Op::Either => "either",
        Op::Left => "left",
        Op::Right => "right",
    }
}

pub(crate) fn op_named(word: &[u8]) -> Option<Op>
    ensures { option_map op_number result ≡ op_named word.now }
{
    let named = OPS.iter().find(|x| is_word(word, op_name(**x).as_bytes()));
    named.copied()
}

pub fn comparison_name(comparison: Comparison) -> &'static str
    ensures { result.now ≡ comparison_name (comparison_number comparison) }
{
    match comparison {
        Comparison::Equal => "equal",
        Comparison::Unequal => "unequal",
        Comparison::Less => "below",
        Comparison::NotLess => "not below",
    }
}

pub(crate) fn comparison_named(word: &[u8]) -> Option<Comparison>
    ensures { option_map comparison_number result ≡ comparison_named word.now }
{
    let named = COMPARISONS
        .iter()
        .find(|x| is_word(word, comparison_name(**x).as_bytes()));
    named.copied()
}
