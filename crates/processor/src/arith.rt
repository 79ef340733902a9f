// What the processor reckons: words as bits, masked and shifted.
ghost use Rattle.std.specs.Prelude.{◌≡◌, ◌≤◌, IfErr, MatchResult};
ghost use Rattle.std.specs.Option.{option_to_list};
ghost use Rattle.command.specs.Machine.{reckoned};
ghost use Rattle.command.specs.Codes.{op_number};
ghost use Rattle.processor.specs.Reckons.{reckon_reply, refusal_number, refusal_of};

use command::code::Op;

// Why a reckoning by numbers comes to nothing.
#[derive(Clone, Copy, Debug, PartialEq, Eq)]
pub enum ReckonError {
    NoSuchOp,
    // A number is 2^32 or more.
    TooLarge,
    // A quotient or remainder by 0.
    ByZero,
}

// What it comes to; a quotient or a remainder by 0 is nothing.
pub(crate) fn apply(op: Op, a: u32, b: u32) -> Option<u32>
    ensures { option_to_list result ≡ reckoned (op_number op) a b }
{
    match op {
        Op::Sum => Some(a.wrapping_add(b)),
        Op::Difference => Some(a.wrapping_sub(b)),
        Op::Product => Some(a.wrapping_mul(b)),
        Op::Quotient => a.checked_div(b),
        Op::Remainder => a.checked_rem(b),
        Op::And => Some(a & b),
        Op::Or => Some(a | b),
        Op::Either => Some(a ^ b),
        Op::Left => Some(a << (b % 32)),
        Op::Right => Some(a >> (b % 32)),
    }
}

fn op_of(number: u64) -> Result<Op, ReckonError>
    ensures { MatchResult result (λ op. op_number op ≡ number) (λ e. (e ≡ ReckonError.NoSuchOp) × (10 ≤ number)) }
{
    Op::try_from(number).map_err(|_| ReckonError::NoSuchOp)
}

fn word_of(number: u64) -> Result<u32, ReckonError>
    ensures { MatchResult result (λ word. word ≡ number) (λ e. (e ≡ ReckonError.TooLarge) × (4294967296 ≤ number)) }
{
    u32::try_from(number).map_err(|_| ReckonError::TooLarge)
}

// A reckoning by numbers. The reply says all; a refusal is also told by its number.
pub fn reckon(op: u64, a: u64, b: u64) -> Result<u64, ReckonError>
    ensures reply { result ≡ reckon_reply op a b }
    ensures refused { IfErr result (λ e. refusal_number e ≡ refusal_of op a b) }
{
    let op = op_of(op)?;
    let v = apply(op, word_of(a)?, word_of(b)?).ok_or(ReckonError::ByZero)?;
    Ok(u64::from(v))
}
