// Cutting a line into words.
ghost use Rattle.std.specs.Prelude.{◌≡◌};
ghost use Rattle.prompt.specs.Words.{is_blank, in_word, trimmed, word, behind};

use scan::fronts::split_while;

// Spaces, tabs and commas stand between words, and a carriage return may end a line.
fn is_blank(b: u8) -> bool
    ensures { result ≡ is_blank b }
{
    b == b' ' || b == b'\t' || b == b',' || b == b'\r'
}

// A word goes on to a blank or a comment.
fn in_word(b: u8) -> bool
    ensures { result ≡ in_word b }
{
    !is_blank(b) && b != b'#'
}

// The text from its first word or comment on.
pub(crate) fn trim(text: &[u8]) -> &[u8]
    ensures { result.now ≡ trimmed text.now }
{
    split_while(text, is_blank).1
}

// The word that a text begins with, and what stands behind it.
pub(crate) fn split_word(text: &[u8]) -> (&[u8], &[u8])
    ensures front { result.0.now ≡ word text.now }
    ensures back { result.1.now ≡ behind text.now }
{
    split_while(text, in_word)
}
