// Breaks written as bytes.
ghost use Rattle.std.specs.Prelude.{◌≡◌};
ghost use Rattle.std.specs.Option.{option_to_list};
ghost use Rattle.command.specs.Plain.{numbers, test_spelled, break_spelled};
ghost use Rattle.command.specs.Breaks.{test_of, break_of};
ghost use Rattle.command.specs.Written.{Puts};

use crate::breaks::{Break, Subject, Test};
use crate::byte::Byte;
use crate::writing::parts::{put_number, put_with};
use crate::writing::put_each;
use std::alloc::AllocError;

pub(crate) fn put_test<B: Byte>(out: &mut Vec<B>, test: Test) -> Result<(), AllocError>
    ensures { Puts (B.text out.old.items) (test_spelled (test_of test)) result (B.text out.new.items) }
{
    match test.subject {
        Subject::Register(register) => put_with(out, &[0], u64::from(register.number))?,
        Subject::Word(word) => put_with(out, &[1], u64::from(word))?,
    }
    put_with(out, &[u8::from(test.comparison)], u64::from(test.value))
}

// A place, or that there is none.
fn put_maybe_place(out: &mut Vec<u64>, place: Option<u16>) -> Result<(), AllocError>
    ensures { Puts out.old.items (numbers (option_to_list place)) result out.new.items }
{
    let Some(place) = place else {
        return put_number(out, 0);
    };
    put_number(out, 1)?;
    put_number(out, u64::from(place))
}

pub(crate) fn put_break(out: &mut Vec<u64>, stop: Break) -> Result<(), AllocError>
    ensures { Puts out.old.items (break_spelled (break_of stop)) result out.new.items }
{
    put_maybe_place(out, stop.place)?;
    put_number(out, u64::from(stop.count))?;
    put_each(out, stop.tests())?;
    put_maybe_place(out, stop.changed)
}
