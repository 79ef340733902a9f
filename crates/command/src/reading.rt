// Commands read from what is told: one byte to a number, though any number may come.
ghost use Rattle.std.specs.Prelude.{◌≡◌, length, IfSome};
ghost use Rattle.command.specs.Reader.{steps, any_number, so_many, counted, one_of, order_ways, command_ways};
ghost use Rattle.command.specs.Taken.{left_in, Takes, itself};
ghost use Rattle.command.specs.Told.{listed, meant, told, Counted, Reads};

use crate::byte::Byte;
use crate::code::Instr;
use crate::command_kinds::{
    BACK, BREAK, CHANGER, DROP, FORWARD, GIVE, LOAD, OUTS, REGISTERS, RERUN, RUN, WHERE, WORDS,
};
use crate::commands::{Command, Order};
use crate::reading::parts::PLACES;
use crate::spelled::Spelled;

mod cursor;
mod instruction;
mod parts;
mod stops;

pub use cursor::Cursor;

const MOST_STEPS: u64 = 1_000_000_000;

// The longest list, also of what is asked to be shown.
const MOST: u64 = 4_096;

// A text that is no command.
#[derive(Clone, Copy, Debug, PartialEq, Eq)]
pub struct NoCommand;

impl<B: Byte> Cursor<'_, B> {
    // Past a list: how many it has, up to the most that a list may.
    fn list<T: Spelled>(&mut self) -> Option<u64>
        ensures takes { Takes (λ _. listed (counted 4096 T.reader (left_in B.text self.old))) (counted 4096 T.reader (left_in B.text self.old)) result (left_in B.text self.new) }
        ensures count { IfSome result (λ n. n ≡ length (listed (counted 4096 T.reader (left_in B.text self.old)))) }
    {
        let count = self.up_to(MOST)?;
        for _ in 0..count {
            T::take(self)?;
        }
        Some(count)
    }

    fn steps(&mut self) -> Option<u64>
        ensures { Takes itself (steps (left_in B.text self.old)) result (left_in B.text self.new) }
    {
        self.up_to(MOST_STEPS)
    }

    // Any number of eight bytes.
    fn any_number(&mut self) -> Option<u64>
        ensures { Takes itself (any_number (left_in B.text self.old)) result (left_in B.text self.new) }
    {
        self.number()
    }

    // What follows the first byte, by that byte.
    fn order_of(&mut self, kind: u8) -> Option<Order>
        ensures { Takes meant (one_of order_ways kind (left_in B.text self.old)) result (left_in B.text self.new) }
    {
        match kind {
            FORWARD => Some(Order::Forward(self.steps()?)),
            BACK => Some(Order::Back(self.steps()?)),
            RUN => Some(Order::Run(self.steps()?)),
            RERUN => Some(Order::Rerun(self.steps()?)),
            CHANGER => Some(Order::Changer(self.below(PLACES)?)),
            BREAK => Some(Order::Break(self.stop()?)),
            DROP => Some(Order::Drop(self.any_number()?)),
            WHERE => Some(Order::Where),
            REGISTERS => Some(Order::Registers),
            WORDS => {
                Some(Order::Words {
                    from: self.below(PLACES)?,
                    count: self.up_to(MOST)?,
                })
            }
            OUTS => {
                Some(Order::Outs {
                    from: self.any_number()?,
                    count: self.up_to(MOST)?,
                })
            }
            _ => None,
        }
    }

    fn command_of(&mut self, kind: u8) -> Option<Command>
        ensures takes { Takes (told (left_in B.text self.old)) (one_of command_ways kind (left_in B.text self.old)) result (left_in B.text self.new) }
        ensures counted { Counted (left_in B.text self.old) result }
    {
        match kind {
            LOAD => Some(Command::Load(self.list::<Instr>()?)),
            GIVE => Some(Command::Give(self.list::<u32>()?)),
            _ => Some(Command::Order(self.order_of(kind)?)),
        }
    }
}

// The command that a text spells, if it fits.
pub fn read(text: &[u64]) -> Result<Command, NoCommand>
    ensures { Reads text.now result }
{
    let mut cursor = Cursor { rest: text };
    let kind = cursor.kind().ok_or(NoCommand)?;
    match cursor.command_of(kind) {
        Some(command) if cursor.rest.is_empty() => Ok(command),
        _ => Err(NoCommand),
    }
}
