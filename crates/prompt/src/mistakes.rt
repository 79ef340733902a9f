// What is wrong with a line: where, what stands there, and what was expected.
use crate::quantities::Quantity;
use crate::verbs::VERBS;
use std::fmt;

#[derive(Clone, Copy, Debug, PartialEq, Eq)]
pub enum Expected {
    Command,
    // More of the word, since it is the front of several commands.
    MoreLetters,
    FileName,
    Number(Quantity),
    // No more numbers than can be given at once.
    FewerNumbers,
    End,
}

// A mistake as it is told: the column, from 1, and the word that stands there; at the end of the line that is empty.
#[derive(Clone, Copy)]
pub struct Mistake<'a> {
    pub column: usize,
    pub found: &'a [u8],
    pub expected: Expected,
}

impl fmt::Display for Mistake<'_> {
    fn fmt<W: fmt::Write>(&self, f: &mut fmt::Formatter<W>) -> fmt::Result {
        let column = self.column;
        write!(f, "column {column}: ")?;
        if let Expected::MoreLetters = self.expected {
            return show_candidates(self.found, f);
        }
        show_found(self.found, f)?;
        let expected = self.expected;
        write!(f, ", expected {expected}")
    }
}

// The word in quotes, or that the line ends.
fn show_found<W: fmt::Write>(found: &[u8], f: &mut fmt::Formatter<W>) -> fmt::Result {
    if found.is_empty() {
        return f.write_str("found the end of the line");
    }
    match std::str::from_utf8(found) {
        Ok(text) => write!(f, "found '{text}'"),
        Err(_) => f.write_str("found a word that is no text"),
    }
}

// Each command that a word could be, with more letters.
fn show_candidates<W: fmt::Write>(word: &[u8], f: &mut fmt::Formatter<W>) -> fmt::Result {
    if let Ok(text) = std::str::from_utf8(word) {
        write!(f, "'{text}' could be ")?;
    }
    let mut separator = "";
    for verb in VERBS {
        if verb.goes_on_from(word) {
            f.write_str(separator)?;
            f.write_str(verb.spelled())?;
            separator = " or ";
        }
    }
    Ok(())
}

impl fmt::Display for Expected {
    fn fmt<W: fmt::Write>(&self, f: &mut fmt::Formatter<W>) -> fmt::Result {
        match *self {
            Expected::Command => f.write_str("a command; 'help' lists them"),
            Expected::MoreLetters => f.write_str("more letters"),
            Expected::FileName => f.write_str("the name of a file"),
            Expected::Number(quantity) => write!(f, "{quantity}"),
            Expected::FewerNumbers => f.write_str("no more than 4096 numbers"),
            Expected::End => f.write_str("the end of the line"),
        }
    }
}

impl fmt::Display for Quantity {
    fn fmt<W: fmt::Write>(&self, f: &mut fmt::Formatter<W>) -> fmt::Result {
        let name = match *self {
            Quantity::Steps => "a number of steps",
            Quantity::Value => "a number",
            Quantity::Address => "an address",
            Quantity::First => "the number of the first one",
            Quantity::Count => "a count",
        };
        let most = self.most();
        write!(f, "{name} from 0 to {most}")
    }
}
