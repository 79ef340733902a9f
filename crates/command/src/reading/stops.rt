// A break taken off the front of a text.
ghost use Rattle.std.specs.Prelude.{◌≡◌, ◌≤◌, take};
ghost use Rattle.std.specs.Option.{option_to_list};
ghost use Rattle.command.specs.Machine.{each};
ghost use Rattle.command.specs.Breaks.{test_of, break_of};
ghost use Rattle.command.specs.Reader.{place, subject, test, so_many, counted, break};
ghost use Rattle.command.specs.Taken.{left_in, Takes, subject_of};

use crate::breaks::{BLANK_TEST, Break, Subject, Test};
use crate::byte::Byte;
use crate::code::Reg;
use crate::reading::cursor::Cursor;
use crate::reading::parts::REGISTERS;

impl<B: Byte> Cursor<'_, B> {
    fn subject(&mut self) -> Option<Subject>
        ensures { Takes subject_of (subject (left_in B.text self.old)) result (left_in B.text self.new) }
    {
        if self.byte(2)? == 0 {
            let number = self.below(REGISTERS)?;
            return Some(Subject::Register(Reg {
                number: number as u8,
            }));
        }
        Some(Subject::Word(self.place()?))
    }

    pub(crate) fn test(&mut self) -> Option<Test>
        ensures { Takes test_of (test (left_in B.text self.old)) result (left_in B.text self.new) }
    {
        Some(Test {
            subject: self.subject()?,
            comparison: self.comparison()?,
            value: self.word()?,
        })
    }

    // So many tests, and blank ones behind them.
    fn tests(&mut self, count: u64) -> Option<[Test; 8]>
        requires { count ≤ 8 }
        ensures { Takes (λ ts. each test_of (take count ts)) (so_many test count (left_in B.text self.old)) result (left_in B.text self.new) }
    {
        let mut tests = [BLANK_TEST; 8];
        for test in &mut tests[..count as usize] {
            *test = self.test()?;
        }
        Some(tests)
    }

    // A place, or that there is none.
    fn maybe_place(&mut self) -> Option<Option<u16>>
        ensures { Takes option_to_list (counted 1 place (left_in B.text self.old)) result (left_in B.text self.new) }
    {
        if self.up_to(1)? == 0 {
            return Some(None);
        }
        Some(Some(self.place()?))
    }

    pub fn stop(&mut self) -> Option<Break>
        ensures { Takes break_of (break (left_in B.text self.old)) result (left_in B.text self.new) }
    {
        let place = self.maybe_place()?;
        let count = self.up_to(8)?;
        let tests = self.tests(count)?;
        let changed = self.maybe_place()?;
        Some(Break {
            place,
            tests,
            count: count as u8,
            changed,
        })
    }
}
