// What instructions reckon, and how they compare. Written anew: the debugger that this one is to be played against shares no code with it.
ghost use Rattle.std.specs.Prelude.{◌≡◌};
ghost use Rattle.std.specs.Option.{option_to_list};
ghost use Rattle.command.specs.Machine.{reckoned as reckoning, compared};
ghost use Rattle.command.specs.Codes.{op_number, comparison_number};

use command::code::{Comparison, Op};

// What it comes to, modulo 2^32; a quotient or a remainder by 0 is nothing.
#[tactic(auto, using(command::proofs::Reckons::and_bits, command::proofs::Reckons::or_bits, command::proofs::Reckons::xor_bits, command::proofs::Reckons::twice_shifts, command::proofs::Reckons::halved_shifts), unfolding(command::specs::Machine::reckoned))]
pub(crate) fn reckoned(op: Op, a: u32, b: u32) -> Option<u32>
    ensures { option_to_list result ≡ reckoning (op_number op) a b }
{
    match op {
        Op::Sum => Some(a.wrapping_add(b)),
        Op::Difference => Some(a.wrapping_sub(b)),
        Op::Product => Some(a.wrapping_mul(b)),
        Op::Quotient => a.checked_div(b),
        Op::Remainder => a.checked_rem(b),
        Op::And => Some(a & b),
        Op::Or => Some(a | b),
        Op::Either => Some(a ^ b),
        Op::Left => Some(a << (b % 32)),
        Op::Right => Some(a >> (b % 32)),
    }
}

#[tactic(auto, unfolding(command::specs::Machine::compared))]
pub(crate) fn compares(comparison: Comparison, a: u32, b: u32) -> bool
    ensures { result ≡ compared (comparison_number comparison) a b }
{
    match comparison {
        Comparison::Equal => a == b,
        Comparison::Unequal => a != b,
        Comparison::Less => a < b,
        Comparison::NotLess => a >= b,
    }
}
