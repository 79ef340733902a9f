// Numbers that words write, decimal or hexadecimal.
ghost use Rattle.std.specs.Prelude.{◌≡◌, ◌≤◌, IfSome};
ghost use Rattle.scan.specs.Numbers.{digit, longer, digits, number};
ghost use Rattle.scan.specs.Bases.{base_number};

// What digits are counted in.
#[derive(Clone, Copy)]
enum Base {
    Ten,
    Sixteen,
}

// The value of a digit in a base, which is a const parameter here and below: known where this is compiled, each digit costs less.
fn digit_of<const BASE: u32>(b: u8) -> Option<u64>
    requires least { 2 ≤ BASE }
    requires most { BASE ≤ 16 }
    ensures { result ≡ digit BASE b }
{
    char::from(b).to_digit(BASE).map(u64::from)
}

// A number with one digit more behind it, if that is not too large.
fn lengthened<const BASE: u32>(n: u64, b: u8, most: u64) -> Option<u64>
    requires least { 2 ≤ BASE }
    requires most { BASE ≤ 16 }
    ensures value { result ≡ longer BASE most n b }
    ensures bound { IfSome result (λ m. m ≤ most) }
{
    let digit = digit_of::<BASE>(b)?;
    let longer = n.checked_mul(u64::from(BASE))?.checked_add(digit)?;
    if longer > most { None } else { Some(longer) }
}

fn number_in<const BASE: u32>(text: &[u8], most: u64) -> Option<u64>
    requires least { 2 ≤ BASE }
    requires most { BASE ≤ 16 }
    ensures value { result ≡ digits BASE most 0 text.now }
    ensures bound { IfSome result (λ m. m ≤ most) }
{
    let mut n = 0;
    for b in text {
        n = lengthened::<BASE>(n, *b, most)?;
    }
    Some(n)
}

// The number that digits spell, if it is not too large.
fn number_from(text: &[u8], base: Base, most: u64) -> Option<u64>
    ensures value { result ≡ digits (base_number base) most 0 text.now }
    ensures bound { IfSome result (λ m. m ≤ most) }
{
    match base {
        Base::Ten => number_in::<10>(text, most),
        Base::Sixteen => number_in::<16>(text, most),
    }
}

// The number that a word writes, decimal or hexadecimal, if it is not too large.
pub fn number_up_to(word: &[u8], most: u64) -> Option<u64>
    ensures value { result ≡ number most word.now }
    ensures bound { IfSome result (λ m. m ≤ most) }
{
    match word {
        [] => None,
        [b'0', b'x', digits @ ..] if !digits.is_empty() => number_from(digits, Base::Sixteen, most),
        _ => number_from(word, Base::Ten, most),
    }
}
