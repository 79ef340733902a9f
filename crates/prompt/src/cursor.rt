// What is left of a line while it is read. Where something else was expected, the cursor stays there.
ghost use Rattle.std.specs.Prelude.{◌≡◌, ◌<◌, ◌≤◌, IfOk, OnOk};
ghost use Rattle.prompt.specs.Words.{trimmed, is_over};
ghost use Rattle.prompt.specs.Numbers.{most_of};
ghost use Rattle.prompt.specs.Requests.{a_number, a_value, a_verb};
ghost use Rattle.prompt.specs.Meant.{left, itself, Took};

use crate::mistakes::Expected;
use crate::quantities::Quantity;
use crate::verbs::{Verb, choose};
use crate::words::{split_word, trim};
use scan::fronts::is_over;
use scan::numbers::number_up_to;

#[derive(Clone, Copy)]
pub(crate) struct Cursor<'a> {
    pub rest: &'a [u8],
}

impl Cursor<'_> {
    pub(crate) fn skip_blanks(&mut self)
        ensures { left self.new ≡ trimmed (left self.old) }
    {
        self.rest = trim(self.rest);
    }

    // Nothing but a comment is left of a trimmed line.
    pub(crate) fn is_over(&self) -> bool
        ensures { result ≡ is_over (left self.now) }
    {
        is_over(self.rest)
    }

    pub(crate) fn number(&mut self, quantity: Quantity) -> Result<u64, Expected>
        ensures value { Took itself (a_number quantity (left self.old)) result (left self.new) }
        ensures bound { IfOk result (λ n. n ≤ most_of quantity) }
    {
        self.skip_blanks();
        let (word, rest) = split_word(self.rest);
        let number = number_up_to(word, quantity.most()).ok_or(Expected::Number(quantity))?;
        self.rest = rest;
        Ok(number)
    }

    // A command word. One step for both, with what reads the word passed to it, would be no shorter than the two.
    pub(crate) fn verb(&mut self) -> Result<Verb, Expected>
        ensures { Took itself (a_verb (left self.old)) result (left self.new) }
    {
        self.skip_blanks();
        let (word, rest) = split_word(self.rest);
        let verb = choose(word)?;
        self.rest = rest;
        Ok(verb)
    }

    // A number that is to come in, if there may be so many more, up to the next word.
    pub(crate) fn value(&mut self, most: usize) -> Result<u32, Expected>
        ensures value { Took itself (a_value most (left self.old)) result (left self.new) }
        ensures bound { OnOk result (0 < most) }
    {
        if most == 0 {
            return Err(Expected::FewerNumbers);
        }
        let number = self.number(Quantity::Value)?;
        self.skip_blanks();
        Ok(number as u32)
    }
}
