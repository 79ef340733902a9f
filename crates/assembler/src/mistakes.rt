// What is wrong with a source text, and where.
ghost use Rattle.std.specs.Prelude.{◌≡◌, IfOk, Some};
ghost use Rattle.assembler.specs.declared.mistakes.AssembleError.TheVariants.{NoMemory};
ghost use Rattle.assembler.specs.Source.{found_at, mistake_on, mistake_of, Tells, expected_text, mistake_text};

use crate::words::{Line, shown, split_word};
use scan::fronts::is_over;
use std::alloc::{AllocError, AllocFailed, Global};
use std::fmt;

// What was expected where something else stood.
#[derive(Clone, Copy, Debug, PartialEq, Eq)]
pub enum Expected {
    Mnemonic,
    Operation,
    // After `not`.
    Below,
    Register,
    Number,
    Offset,
    Place,
    KnownLabel,
    NewLabel,
    LabelName,
    LineEnd,
    // No instruction past the last for which there is room.
    Room,
}

impl fmt::Display for Expected {
    ghost output = { λ e. Some (expected_text e) };

    fn fmt<W: fmt::Write>(&self, f: &mut fmt::Formatter<W>) -> fmt::Result {
        f.write_str(match self {
            Expected::Mnemonic => "an instruction",
            Expected::Operation => "an operation, such as sum",
            Expected::Below => "below, after not",
            Expected::Register => "a register from 0 to 15",
            Expected::Number => "a number below 4294967296",
            Expected::Offset => "an offset below 65536",
            Expected::Place => "a label or a place below 65536",
            Expected::KnownLabel => "a label that some line has",
            Expected::NewLabel => "a label that no line before has",
            Expected::LabelName => "a label's name before the colon",
            Expected::LineEnd => "the end of the line",
            Expected::Room => "no more than 4096 instructions",
        })
    }
}

// The word that stands at the front; a sign that ends words, by itself; nothing at the end of the line or at a comment.
fn found_at(text: &[u8]) -> &[u8]
    ensures { result.now ≡ found_at text.now }
{
    if is_over(text) {
        return &text[0..0];
    }
    let (word, _) = split_word(text);
    match text {
        [_, ..] if word.is_empty() => &text[0..1],
        _ => word,
    }
}

// The first mistake in a text.
#[derive(Drop)]
pub struct Mistake {
    // From 1.
    pub line: usize,
    // In bytes, from 1.
    pub column: usize,
    // As it can be shown; empty at the end of the line.
    pub found: String,
    pub expected: Expected,
}

impl Mistake {
    // A mistake on the line of a number, with what is left of the line where it stands.
    pub(crate) fn on(
        heap: Global,
        line: Line<'_>,
        left: &[u8],
        expected: Expected,
    ) -> Result<Mistake, AllocError>
        ensures { IfOk result (λ m. mistake_on line.entry.number line.entry.text.now expected left.now ≡ mistake_of m) }
    {
        let found = shown(heap, found_at(left))?;
        Ok(Mistake {
            line: line.number,
            // What is left of a line is no longer than the line, so nothing is cut off here.
            column: line.text.len().saturating_sub(left.len()) + 1,
            found,
            expected,
        })
    }
}

impl fmt::Display for Mistake {
    ghost output = { λ m. Some (mistake_text (mistake_of m)) };

    fn fmt<W: fmt::Write>(&self, f: &mut fmt::Formatter<W>) -> fmt::Result {
        let line = self.line;
        let column = self.column;
        let expected = self.expected;
        if self.found.is_empty() {
            write!(
                f,
                "line {line}, column {column}: found the end of the line, expected {expected}"
            )
        } else {
            let found = self.found.as_str();
            write!(
                f,
                "line {line}, column {column}: found '{found}', expected {expected}"
            )
        }
    }
}

#[derive(Drop)]
pub enum AssembleError {
    Wrong(Mistake),
    NoMemory,
}

impl AssembleError {
    // The mistake, or the want of memory to tell it.
    pub(crate) fn on(heap: Global, line: Line<'_>, left: &[u8], expected: Expected) -> AssembleError
        ensures { Tells (mistake_on line.entry.number line.entry.text.now expected left.now) result }
    {
        Mistake::on(heap, line, left, expected).map_or(
            AssembleError::NoMemory,
            AssembleError::Wrong,
        )
    }
}

impl From<AllocError> for AssembleError {
    ghost from_gives = { λ _ y. y ≡ NoMemory };

    fn from(_error: AllocError) -> AssembleError {
        AssembleError::NoMemory
    }
}

impl<T: Drop> From<AllocFailed<T>> for AssembleError {
    ghost from_gives = { λ _ y. y ≡ NoMemory };

    fn from(_refused: AllocFailed<T>) -> AssembleError {
        AssembleError::NoMemory
    }
}
