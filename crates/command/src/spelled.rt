// What texts spell in lists: instructions, words and tests.
ghost use Rattle.std.specs.Prelude.{◌≡◌, ℕ, List};
ghost use Rattle.command.specs.Machine.{Instr as Asked, eight};
ghost use Rattle.command.specs.Plain.{Test as Looked, instr_spelled, test_spelled};
ghost use Rattle.command.specs.Codes.{code};
ghost use Rattle.command.specs.Breaks.{test_of};
ghost use Rattle.command.specs.Reader.{Reader, instr, word, test};
ghost use Rattle.command.specs.Taken.{left_in, Takes, itself};
ghost use Rattle.command.specs.Written.{Puts};

use crate::breaks::Test;
use crate::byte::Byte;
use crate::code::Instr;
use crate::reading::Cursor;
use crate::writing::{put_instr, put_number, put_test};
use std::alloc::AllocError;

pub(crate) trait Spelled: Copy {
    // What a value stands for, and how that is read and spelled.
    ghost Meant: { Type 0 };

    ghost meant: { Self → Meant };

    ghost reader: { Reader Meant };

    ghost spelled: { Meant → List ℕ };

    fn take<B: Byte>(cursor: &mut Cursor<'_, B>) -> Option<Self>
        ensures { Takes meant (reader (left_in B.text cursor.old)) result (left_in B.text cursor.new) };

    fn put<B: Byte>(self, out: &mut Vec<B>) -> Result<(), AllocError>
        ensures { Puts (B.text out.old.items) (spelled (meant self)) result (B.text out.new.items) };
}

impl Spelled for Instr {
    ghost Meant = { Asked };

    ghost meant = { code };

    ghost reader = { instr };

    ghost spelled = { instr_spelled };

    fn take<B: Byte>(cursor: &mut Cursor<'_, B>) -> Option<Instr> {
        cursor.instr()
    }

    fn put<B: Byte>(self, out: &mut Vec<B>) -> Result<(), AllocError> {
        put_instr(out, self)
    }
}

impl Spelled for u32 {
    ghost Meant = { ℕ };

    ghost meant = { itself };

    ghost reader = { word };

    ghost spelled = { eight };

    fn take<B: Byte>(cursor: &mut Cursor<'_, B>) -> Option<u32> {
        cursor.word()
    }

    fn put<B: Byte>(self, out: &mut Vec<B>) -> Result<(), AllocError> {
        put_number(out, u64::from(self))
    }
}

impl Spelled for Test {
    ghost Meant = { Looked };

    ghost meant = { test_of };

    ghost reader = { test };

    ghost spelled = { test_spelled };

    fn take<B: Byte>(cursor: &mut Cursor<'_, B>) -> Option<Test> {
        cursor.test()
    }

    fn put<B: Byte>(self, out: &mut Vec<B>) -> Result<(), AllocError> {
        put_test(out, self)
    }
}
