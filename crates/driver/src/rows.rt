// Programs, breaks and numbers read back from the row that a step wrote.
ghost use Rattle.std.specs.Prelude.{ℕ, length};
ghost use Rattle.command.specs.Machine.{each, Instr as PlainInstr};
ghost use Rattle.command.specs.Plain.{Break as PlainBreak};
ghost use Rattle.command.specs.Codes.{code};
ghost use Rattle.command.specs.Breaks.{break_of, breaks_of};
ghost use Rattle.command.specs.Reader.{Reader, so_many, instr, break};
ghost use Rattle.command.specs.Taken.{left, itself, Takes};
ghost use Rattle.driver.specs.Rows.{Filled, one_word};

use crate::event::{Ending, FAULT};
use command::breaks::Break;
use command::code::Instr;
use command::reading::Cursor;

// What a row holds, one behind the other. Not the trait of commands' lists: a row is only read, and holds a number as it is.
pub trait InRow: Copy {
    ghost Plain: { Type 0 };

    ghost plain: { Self → Plain };

    ghost reader: { Reader Plain };

    // The next one of a text.
    fn next(cursor: &mut Cursor<'_>) -> Option<Self>
        ensures { Takes plain (reader (left cursor.old)) result (left cursor.new) };
}

impl InRow for Instr {
    ghost Plain = { PlainInstr };

    ghost plain = { code };

    ghost reader = { instr };

    fn next(cursor: &mut Cursor<'_>) -> Option<Instr> {
        cursor.instr()
    }
}

impl InRow for Break {
    ghost Plain = { PlainBreak };

    ghost plain = { break_of };

    ghost reader = { break };

    fn next(cursor: &mut Cursor<'_>) -> Option<Break> {
        cursor.stop()
    }
}

impl InRow for u32 {
    ghost Plain = { ℕ };

    ghost plain = { itself };

    ghost reader = { one_word };

    // A row holds a number as it is.
    fn next(cursor: &mut Cursor<'_>) -> Option<u32> {
        let (number, rest) = cursor.rest.split_first()?;
        cursor.rest = rest;
        u32::try_from(*number).ok()
    }
}

// Fills `slots` from the front of a text; an act cannot be if it does not spell so many.
pub fn read_back<T: InRow>(text: &[u64], slots: &mut [T]) -> Result<(), Ending>
    ensures { Filled result (so_many T.reader (length slots.old) text.now) (each T.plain slots.new) }
{
    let mut cursor = Cursor { rest: text };
    for slot in slots {
        *slot = T::next(&mut cursor).ok_or(FAULT)?;
    }
    Ok(())
}

// At breaks, for callers whose proof cannot compute the clause at a type with a ghost field.
pub fn read_breaks(text: &[u64], breaks: &mut [Break]) -> Result<(), Ending>
    ensures { Filled result (so_many break (length breaks.old) text.now) (breaks_of breaks.new) }
{
    read_back(text, breaks)
}
