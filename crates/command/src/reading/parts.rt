// The parts of a command, each taken off the front of a text: bytes, numbers, registers, places, words.
ghost use Rattle.std.specs.Prelude.{◌≡◌, suc, ◌<◌};
ghost use Rattle.command.specs.Reader.{first, byte, bytes, number, below, up_to, register, place, word};
ghost use Rattle.command.specs.Codes.{op_number, comparison_number};
ghost use Rattle.command.specs.Taken.{left_in, Takes, Within, itself, reg_number};

use crate::byte::Byte;
use crate::code::{Comparison, Op, Reg};
use crate::reading::cursor::Cursor;

pub(crate) const REGISTERS: u64 = 16;

pub(crate) const PLACES: u64 = 65_536;

const WORDS: u64 = 4_294_967_296;

impl<B: Byte> Cursor<'_, B> {
    pub(crate) fn first(&mut self) -> Option<u64>
        ensures { Takes itself (first (left_in B.text self.old)) result (left_in B.text self.new) }
    {
        let (first, rest) = self.rest.split_first()?;
        self.rest = rest;
        Some(first.number())
    }

    // This, `below` and `up_to` keep a test each: one for all would take it as a closure, and how that reads as a ghost.
    pub(crate) fn byte(&mut self, limit: u64) -> Option<u64>
        ensures takes { Takes itself (byte (below limit) (left_in B.text self.old)) result (left_in B.text self.new) }
        ensures within { Within limit result }
    {
        let byte = self.first()?;
        if byte < limit { Some(byte) } else { None }
    }

    // A byte that tells what follows.
    pub(crate) fn kind(&mut self) -> Option<u8>
        ensures { Takes itself (byte (below 256) (left_in B.text self.old)) result (left_in B.text self.new) }
    {
        Some(self.byte(256)? as u8)
    }

    // A number of eight bytes, the highest first.
    pub fn number(&mut self) -> Option<u64>
        ensures { Takes itself (bytes 8 0 (left_in B.text self.old)) result (left_in B.text self.new) }
    {
        let mut number = 0;
        for _ in 0..8u64 {
            number = number * 256 + self.byte(256)?;
        }
        Some(number)
    }

    pub(crate) fn below(&mut self, limit: u64) -> Option<u64>
        ensures takes { Takes itself (number (below limit) (left_in B.text self.old)) result (left_in B.text self.new) }
        ensures within { Within limit result }
    {
        let number = self.number()?;
        if number < limit { Some(number) } else { None }
    }

    // A number up to a limit, as the count of a list is.
    pub fn up_to(&mut self, most: u64) -> Option<u64>
        ensures takes { Takes itself (number (up_to most) (left_in B.text self.old)) result (left_in B.text self.new) }
        ensures within { Within (suc most) result }
    {
        let number = self.number()?;
        if number <= most { Some(number) } else { None }
    }

    pub(crate) fn register(&mut self) -> Option<Reg>
        ensures { Takes reg_number (register (left_in B.text self.old)) result (left_in B.text self.new) }
    {
        let number = self.byte(REGISTERS)?;
        Some(Reg {
            number: number as u8,
        })
    }

    pub(crate) fn place(&mut self) -> Option<u16>
        ensures { Takes itself (place (left_in B.text self.old)) result (left_in B.text self.new) }
    {
        Some(self.below(PLACES)? as u16)
    }

    // A number that is to come in.
    pub fn word(&mut self) -> Option<u32>
        ensures { Takes itself (word (left_in B.text self.old)) result (left_in B.text self.new) }
    {
        Some(self.below(WORDS)? as u32)
    }

    pub(crate) fn op(&mut self) -> Option<Op>
        ensures { Takes op_number (byte (below 10) (left_in B.text self.old)) result (left_in B.text self.new) }
    {
        Op::try_from(self.first()?).ok()
    }

    pub(crate) fn comparison(&mut self) -> Option<Comparison>
        ensures { Takes comparison_number (byte (below 4) (left_in B.text self.old)) result (left_in B.text self.new) }
    {
        Comparison::try_from(self.first()?).ok()
    }
}
