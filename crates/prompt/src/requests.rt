// A line read: the request that it makes, or the first mistake in it.
ghost use Rattle.std.specs.Prelude.{◌≡◌, ℕ, IfOk};
ghost use Rattle.prompt.specs.Requests.{a_number, as_two, numbers_in, asked_by, a_command, asked, request, Asked};
ghost use Rattle.prompt.specs.Meant.{left, meant, Took, Reads};

use crate::cursor::Cursor;
use crate::mistakes::{Expected, Mistake};
use crate::quantities::Quantity;
use crate::verbs::Verb;
use crate::words::{split_word, trim};
use scan::fronts::is_over;
use std::alloc::{AllocError, Global};

const MOST_NUMBERS: usize = 4_096;

// Numbers as they were typed: no more than 4,096, each below 2^32.
#[derive(Clone, Copy)]
pub struct Numbers<'a> {
    text: &'a [u8],
}

#[derive(Clone, Copy)]
pub enum Request<'a> {
    // A line with nothing but a comment.
    Nothing,
    // An empty line: the last move again.
    Repeat,
    // The name of a file.
    Load(&'a [u8]),
    Give(Numbers<'a>),
    Forward(u64),
    Where,
    Registers,
    // The first address, and how many.
    Words(u64, u64),
    // The first of what went out, and how many.
    Outs(u64, u64),
    Help(Option<Verb>),
    Quit,
}

impl Numbers<'_> {
    // The numbers; of a text that was not read as such, none.
    pub fn to_vec(&self, heap: Global) -> Result<Vec<u32>, AllocError>
        ensures { IfOk result (λ v. v.items ≡ numbers_in self.now.text.now) }
    {
        let mut numbers = Vec::new(heap);
        let mut cursor = Cursor {
            rest: trim(self.text),
        };
        // Counted down by hand: the line's end and not the count ends the loop, and reading says when there are too many.
        let mut most = MOST_NUMBERS;
        while !cursor.is_over() {
            let Ok(n) = cursor.value(most) else {
                return Ok(Vec::new(heap));
            };
            numbers.push(n)?;
            most -= 1;
        }
        Ok(numbers)
    }
}

impl<'a> Cursor<'a> {
    fn file(&mut self) -> Result<Request<'a>, Expected>
        ensures { Took meant (asked_by Verb.Load (left self.old)) result (left self.new) }
    {
        self.skip_blanks();
        if self.is_over() {
            return Err(Expected::FileName);
        }
        let (word, rest) = split_word(self.rest);
        self.rest = rest;
        Ok(Request::Load(word))
    }

    // The numbers to the end of the line.
    fn numbers(&mut self) -> Result<Request<'a>, Expected>
        ensures { Took meant (asked_by Verb.Give (left self.old)) result (left self.new) }
    {
        let text = self.rest;
        self.skip_blanks();
        // As in `to_vec`; two loops, since one keeps the numbers and the other takes no memory.
        let mut most = MOST_NUMBERS;
        while !self.is_over() {
            self.value(most)?;
            most -= 1;
        }
        Ok(Request::Give(Numbers { text }))
    }

    // A first one, and how many.
    fn span(&mut self, first: Quantity) -> Result<(u64, u64), Expected>
        ensures { (f : ℕ → ℕ → Asked) → Took (λ p. f p.0 p.1) (as_two f (a_number first) (a_number Quantity.Count) (left self.old)) result (left self.new) }
    {
        let from = self.number(first)?;
        let count = self.number(Quantity::Count)?;
        Ok((from, count))
    }

    // A command word that help is wanted of, if one is named.
    fn topic(&mut self) -> Result<Request<'a>, Expected>
        ensures { Took meant (asked_by Verb.Help (left self.old)) result (left self.new) }
    {
        let topic = if is_over(trim(self.rest)) {
            None
        } else {
            Some(self.verb()?)
        };
        Ok(Request::Help(topic))
    }

    // What a command word asks for, with the numbers or the name behind it.
    fn asked_by(&mut self, verb: Verb) -> Result<Request<'a>, Expected>
        ensures { Took meant (asked_by verb (left self.old)) result (left self.new) }
    {
        match verb {
            Verb::Load => self.file(),
            Verb::Give => self.numbers(),
            Verb::Forward => Ok(Request::Forward(self.number(Quantity::Steps)?)),
            Verb::Where => Ok(Request::Where),
            Verb::Registers => Ok(Request::Registers),
            Verb::Words => {
                let (from, count) = self.span(Quantity::Address)?;
                Ok(Request::Words(from, count))
            }
            Verb::Outs => {
                let (from, count) = self.span(Quantity::First)?;
                Ok(Request::Outs(from, count))
            }
            Verb::Help => self.topic(),
            Verb::Quit => Ok(Request::Quit),
        }
    }

    // A command, to the end of the line.
    fn command(&mut self) -> Result<Request<'a>, Expected>
        ensures { Took meant (a_command (left self.old)) result (left self.new) }
    {
        let verb = self.verb()?;
        let request = self.asked_by(verb)?;
        self.skip_blanks();
        if self.is_over() {
            Ok(request)
        } else {
            Err(Expected::End)
        }
    }

    // What a trimmed line asks for.
    fn asked(&mut self) -> Result<Request<'a>, Expected>
        ensures { Took meant (asked (left self.old)) result (left self.new) }
    {
        match self.rest {
            [] => Ok(Request::Repeat),
            [b'#', ..] => Ok(Request::Nothing),
            _ => self.command(),
        }
    }
}

// What a line asks for, or its first mistake.
pub fn read_request(line: &[u8]) -> Result<Request<'_>, Mistake<'_>>
    ensures { Reads (request line.now) result }
{
    let mut cursor = Cursor { rest: trim(line) };
    let asked = cursor.asked();
    asked.map_err(|expected| Mistake {
        column: line.len().saturating_sub(cursor.rest.len()) + 1,
        found: split_word(cursor.rest).0,
        expected,
    })
}
