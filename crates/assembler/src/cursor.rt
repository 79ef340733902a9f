// What is left of a line while it is read. Where a reading goes wrong, the cursor stays at what is wrong.
ghost use Rattle.std.specs.Prelude.{◌≡◌};
ghost use Rattle.std.specs.Option.{option_map};
ghost use Rattle.std.specs.Prelude.{Result};
ghost use Rattle.std.specs.Fn.{FnOnceReturnsAt};
ghost use Rattle.assembler.specs.Words.{word, past_word, spaced, separated};
ghost use Rattle.assembler.specs.Reading.{Took, itself, left, meant, label, ended, shown_name, NamedAlone};

use crate::mistakes::Expected;
use crate::words::{behind, is_name, past_blanks, past_separator, split_word};
use scan::fronts::is_over;

// Apart from the prompt's cursor: there a comma is blank and numbers are expected, here it separates operands.
#[derive(Clone, Copy)]
pub(crate) struct Cursor<'t> {
    pub(crate) rest: &'t [u8],
}

impl<'t> Cursor<'t> {
    pub(crate) fn skip_blanks(&mut self)
        ensures { left self.new ≡ spaced (left self.old) }
    {
        self.rest = past_blanks(self.rest);
    }

    pub(crate) fn skip_separator(&mut self)
        ensures { left self.new ≡ separated (left self.old) }
    {
        self.rest = past_separator(self.rest);
    }

    // The name of the line's label, if it has one.
    pub(crate) fn label(&mut self) -> Result<Option<&'t [u8]>, Expected>
        ensures read { Took shown_name (label (left self.old)) result (left self.new) }
        ensures named { NamedAlone result }
    {
        self.skip_blanks();
        let (word, rest) = split_word(self.rest);
        let Some(more) = behind(rest, b':') else {
            return Ok(None);
        };
        if !is_name(word) {
            return Err(Expected::LabelName);
        }
        self.rest = past_blanks(more);
        Ok(Some(word))
    }

    // One word, as what it is read as.
    pub(crate) fn take_word<T, F: FnOnce(&[u8]) -> Result<T, Expected>>(
        &mut self,
        read: F,
    ) -> Result<T, Expected>
        requires { F.IsAlwaysCallable read }
        ensures { (r : Result T Expected) × FnOnceReturnsAt F.FnOnce read (word (left self.old)) r × Took itself (meant r (left self.old) (past_word (left self.old))) result (left self.new) }
    {
        let (word, rest) = split_word(self.rest);
        let value = read(word)?;
        self.rest = rest;
        Ok(value)
    }

    // Nothing more on the line but a comment.
    pub(crate) fn end(&mut self) -> Result<(), Expected>
        ensures { Took itself (ended (left self.old)) result (left self.new) }
    {
        self.skip_blanks();
        if is_over(self.rest) {
            Ok(())
        } else {
            Err(Expected::LineEnd)
        }
    }
}
