// The words of a line: blanks, words, names and numbers.
ghost use Rattle.std.specs.Prelude.{◌≡◌, ◌+◌, ◌^◌, ◌==◌, ◌<◌, IfSome, IfOk, string_bytes};
ghost use Rattle.command.specs.Machine.{each};
ghost use Rattle.assembler.specs.Words.{blank, letter, in_word, in_name, word, past_word, spaced, separated, a_name, number_below, printable, behind, Behind, without_end};

use scan::fronts::split_while;
use scan::numbers::number_up_to;
use std::alloc::{AllocError, Global};

fn is_blank(b: u8) -> bool
    ensures { result ≡ blank b }
{
    matches!(b, b' ' | b'\t' | b'\r')
}

fn is_letter(b: u8) -> bool
    ensures { result ≡ letter b }
{
    b.is_ascii_alphabetic() || b == b'_'
}

// All but blanks, commas, colons and the sign of a comment.
fn in_word(b: u8) -> bool
    ensures { result ≡ in_word b }
{
    !(is_blank(b) || matches!(b, b',' | b':' | b'#'))
}

// Letters, digits and underscores.
fn in_name(b: u8) -> bool
    ensures { result ≡ in_name b }
{
    is_letter(b) || b.is_ascii_digit()
}

// Where a line ends.
pub(crate) fn ends_line(b: &u8) -> bool
    ensures { result ≡ (b.now == 10) }
{
    *b == b'\n'
}

// What stands behind a sign, if the text begins with it.
pub(crate) fn behind(text: &[u8], sign: u8) -> Option<&[u8]>
    ensures { Behind result (behind sign text.now) }
{
    let [first, rest @ ..] = text else {
        return None;
    };
    if *first == sign { Some(rest) } else { None }
}

// The word at the front, maybe an empty one, and the rest.
pub(crate) fn split_word(text: &[u8]) -> (&[u8], &[u8])
    ensures word { result.0.now ≡ word text.now }
    ensures rest { result.1.now ≡ past_word text.now }
{
    split_while(text, in_word)
}

pub(crate) fn past_blanks(text: &[u8]) -> &[u8]
    ensures { result.now ≡ spaced text.now }
{
    split_while(text, is_blank).1
}

// Past what stands between two operands: blanks, and a comma at most.
pub(crate) fn past_separator(text: &[u8]) -> &[u8]
    ensures { result.now ≡ separated text.now }
{
    let rest = past_blanks(text);
    behind(rest, b',').map_or(rest, past_blanks)
}

// A line of a text, with its number, from 1.
#[derive(Clone, Copy)]
pub(crate) struct Line<'t> {
    pub number: usize,
    pub text: &'t [u8],
}

impl<'t> Line<'t> {
    // The line that a piece of a text is, without its end. The text was cut there: no byte is looked at again.
    pub(crate) fn of(before: usize, piece: &'t [u8]) -> Line<'t>
        requires { before + 1 < 2 ^ 64 }
        ensures number { result.number ≡ before + 1 }
        ensures text { result.text.now ≡ without_end piece.now }
    {
        let text = match piece {
            [text @ .., b'\n'] => text,
            text => text,
        };
        Line {
            number: before + 1,
            text,
        }
    }
}

// A letter or an underscore, and then letters, digits and underscores.
pub(crate) fn is_name(word: &[u8]) -> bool
    ensures { result ≡ a_name word.now }
{
    match word {
        [] => false,
        [first, ..] => is_letter(*first) && split_while(word, in_name).1.is_empty(),
    }
}

// The number that a word writes, in tens or after 0x in sixteens, if it is below a limit. Inlined, since a limit that the compiler knows spares it a test for
// overflow at each digit.
#[inline]
#[tactic(auto, using(crate::proofs::Values::number_same))]
pub(crate) fn number_below(word: &[u8], limit: u64) -> Option<u64>
    requires { 0 < limit }
    ensures value { result ≡ number_below limit word.now }
    ensures bound { IfSome result (λ n. n < limit) }
{
    number_up_to(word, limit - 1)
}

// A byte as it can be shown: a sign of ASCII as it is, any other as a question mark.
fn printable(b: u8) -> u8
    ensures value { result ≡ printable b }
    ensures ascii { result < 128 }
{
    if matches!(b, b' '..=b'~') { b } else { b'?' }
}

// Bytes as they can be shown.
pub(crate) fn shown(heap: Global, bytes: &[u8]) -> Result<String, AllocError>
    ensures { IfOk result (λ s. string_bytes s ≡ each printable bytes.now) }
{
    let mut text = String::new(heap);
    for b in bytes {
        text.push(char::from(printable(*b)))?;
    }
    Ok(text)
}
