// Columns of a line: how wide a text is, and the blanks behind it.
ghost use Rattle.std.specs.Prelude.{◌≡◌, ◌+◌, length, IfOk, Some};
ghost use Rattle.listing.specs.Columns.{Wide, gap, blanks};

use std::fmt;

// Comments begin in this column of an instruction, or two behind a longer one.
const COMMENTS: usize = 28;

const LEAST_GAP: usize = 2;

// A writer that only counts what it takes.
#[derive(Clone, Copy)]
struct Counter {
    bytes: usize,
}

impl fmt::Write for Counter {
    ghost write_str_gives = { λ c bs d. d.bytes ≡ c.bytes + length bs };

    fn write_str(&mut self, s: &str) -> fmt::Result {
        self.bytes = self.bytes.checked_add(s.len()).ok_or(fmt::Error)?;
        Ok(())
    }
}

// How many bytes a value is when it is written.
pub(crate) fn width<D: fmt::Display>(value: &D) -> Result<usize, fmt::Error>
    ensures { IfOk result (λ n. Wide (D.output value.now) n) }
{
    let mut f = fmt::Formatter::new(Counter { bytes: 0 });
    value.fmt(&mut f)?;
    Ok(f.into_inner().bytes)
}

// So many blanks.
#[derive(Clone, Copy)]
pub(crate) struct Blanks {
    count: usize,
}

impl Blanks {
    // Those between an instruction and its comment.
    pub(crate) fn behind(width: usize) -> Blanks
        ensures { result.count ≡ gap width }
    {
        Blanks {
            count: COMMENTS.saturating_sub(width).max(LEAST_GAP),
        }
    }
}

impl fmt::Display for Blanks {
    ghost output = { λ b. Some (blanks b.count) };

    fn fmt<W: fmt::Write>(&self, f: &mut fmt::Formatter<W>) -> fmt::Result {
        for _ in 0..self.count {
            f.write_str(" ")?;
        }
        Ok(())
    }
}
