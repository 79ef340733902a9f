// Registers and words as the user sees them.
use std::fmt;

// As many words as stand on one line.
const PER_LINE: usize = 8;

// Registers in four lines.
#[derive(Clone, Copy)]
pub struct Registers<'a, T>(pub &'a [T]);

// Numbers on one line.
#[derive(Clone, Copy)]
pub struct Row<'a>(pub &'a [u64]);

// Words: few on one line, more in lines of eight behind the address of the first.
#[derive(Clone, Copy)]
pub struct Table<'a> {
    pub from: u64,
    pub words: &'a [u64],
}

impl<T: fmt::Display> fmt::Display for Registers<'_, T> {
    fn fmt<W: fmt::Write>(&self, f: &mut fmt::Formatter<W>) -> fmt::Result {
        for (i, value) in self.0.iter().enumerate() {
            if i > 0 {
                f.write_str(if i % 4 == 0 { "\n" } else { "   " })?;
            }
            write!(f, "r{i:<2} {value:>10}")?;
        }
        Ok(())
    }
}

impl fmt::Display for Row<'_> {
    fn fmt<W: fmt::Write>(&self, f: &mut fmt::Formatter<W>) -> fmt::Result {
        if self.0.is_empty() {
            return f.write_str("none");
        }
        for (i, number) in self.0.iter().enumerate() {
            if i > 0 {
                f.write_str(" ")?;
            }
            write!(f, "{number}")?;
        }
        Ok(())
    }
}

impl fmt::Display for Table<'_> {
    fn fmt<W: fmt::Write>(&self, f: &mut fmt::Formatter<W>) -> fmt::Result {
        if self.words.len() <= PER_LINE {
            let row = Row(self.words);
            return write!(f, "{row}");
        }
        for (i, word) in self.words.iter().enumerate() {
            if i % PER_LINE == 0 {
                if i > 0 {
                    f.write_str("\n")?;
                }
                let address = self.from.saturating_add(i as u64);
                write!(f, "{address:>5}:")?;
            }
            write!(f, " {word:>10}")?;
        }
        Ok(())
    }
}
