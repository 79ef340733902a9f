// How a command begins.
ghost use Rattle.std.specs.Prelude.{◌≡◌, ◌-◌, true, length, drop};
ghost use Rattle.command.specs.Machine.{smaller};
ghost use Rattle.command.specs.Reader.{some, read_command, Says as SaysSo};
ghost use Rattle.command.specs.Plain.{load as loading, give as giving, fits};
ghost use Rattle.command.specs.Told.{meant, program_in, numbers_in};
ghost use Rattle.machine.specs.Engine.{begin as beginning, begin_read};
ghost use Rattle.machine.specs.Lent.{Does};

use crate::acts::{Look, Refusal, Told};
use crate::cells::{CURSOR, FED, PHASE, STEPS_LEFT, TIME};
use crate::lent::Lent;
use crate::phase::Phase;
use crate::row::{put_front, put_given};
use command::commands::{Command, Order};
use command::reading::read;

// How many numbers can come in, in all.
const MOST_FED: u64 = 65_536;
// How many words there are.
const MEMORY_WORDS: u64 = 65_536;

// How many of so many words from a place on there are.
fn words_there(from: u64, count: u64) -> u64
    ensures { result ≡ smaller count (65536 - from) }
{
    count.min(MEMORY_WORDS.saturating_sub(from))
}

impl Lent<'_> {
    // A program: its instructions are as they stand in the text, behind the first byte and their count.
    #[tactic(auto, unfolding(crate::specs::Engine::begin, crate::specs::Engine::written))]
    fn load(self, count: u64, text: &[u64]) -> Told
        requires says { SaysSo text.now (loading (program_in (drop 1 text.now))) }
        requires counts { count ≡ length (program_in (drop 1 text.now)) }
        ensures { Does (beginning self.entry.memory.now (loading (program_in (drop 1 text.now)))) self.entry result self.exit }
    {
        self.memory[PHASE] = Phase::Beginning.into();
        self.memory[CURSOR] = 0;
        self.memory[TIME] = 0;
        self.memory[FED] = 0;
        put_front(self.row, &text[9..]);
        Told::Starts(count)
    }

    // Numbers that are to come in, if not too many would have.
    #[tactic(auto, unfolding(crate::specs::Engine::begin, crate::specs::Engine::written, crate::specs::Engine::cell))]
    fn give(self, count: u64, text: &[u64]) -> Told
        requires says { SaysSo text.now (giving (numbers_in (drop 1 text.now))) }
        requires counts { count ≡ length (numbers_in (drop 1 text.now)) }
        ensures { Does (beginning self.entry.memory.now (giving (numbers_in (drop 1 text.now)))) self.entry result self.exit }
    {
        let fed = self.memory[FED].saturating_add(count);
        if fed > MOST_FED {
            return Told::No(Refusal::Full);
        }
        self.memory[PHASE] = Phase::Ending.into();
        self.memory[FED] = fed;
        put_given(self.row, text, count);
        Told::Feeds(count)
    }

    // Any other command.
    #[tactic(auto, unfolding(crate::specs::Engine::begin_read, crate::specs::Engine::begin, crate::specs::Engine::written, crate::specs::Engine::cell, crate::specs::Engine::set_off, crate::specs::Engine::arrived, command::specs::Plain::core, command::specs::Plain::fits))]
    fn obey(self, order: Order) -> Told
        requires fits { fits (meant order) ≡ true }
        ensures { Does (begin_read self.entry.memory.now (some (meant order))) self.entry result self.exit }
    {
        match order {
            Order::Forward(n) => {
                let here = self.memory[TIME];
                self.memory[STEPS_LEFT] = n;
                self.set_off(here, n)
            }
            Order::Where => {
                self.memory[PHASE] = Phase::Placing.into();
                Told::Looks(Look::Place)
            }
            Order::Registers => {
                self.memory[PHASE] = Phase::Telling.into();
                Told::Looks(Look::Registers)
            }
            Order::Words { from, count } => {
                self.memory[PHASE] = Phase::Telling.into();
                put_front(self.row, &[from, words_there(from, count)]);
                Told::Looks(Look::Words)
            }
            Order::Outs { from, count } => {
                self.memory[PHASE] = Phase::Telling.into();
                put_front(self.row, &[from, count]);
                Told::Looks(Look::Outs)
            }
            _ => Told::No(Refusal::Unknown),
        }
    }

    // Something was said.
    #[tactic(auto, unfolding(crate::specs::Engine::begin_read, crate::specs::Engine::written, command::specs::Plain::core))]
    pub fn hear(self, text: &[u64]) -> Told
        ensures { Does (begin_read self.entry.memory.now (read_command text.now)) self.entry result self.exit }
    {
        match read(text) {
            Ok(Command::Load(count)) => self.load(count, text),
            Ok(Command::Give(count)) => self.give(count, text),
            Ok(Command::Order(order)) => self.obey(order),
            Err(_) => Told::No(Refusal::Unexpected),
        }
    }
}
