// A debugger as a conversation steers it: what it is told is spelled and said, and what it shows is printed.
ghost use Rattle.std.specs.Prelude.{◌≡◌, false};

use crate::place::Place;
use crate::refusal::{Refused, Unsaid};
use crate::showing::Showing;
use crate::shown::numbers_of;
use command::code::Instr;
use command::commands::{Command, Order};
use command::writing::{write, write_give, write_load};
use console::steered::Steered;
use console::tables::{Registers, Row, Table};
use driver::{Debugger, SayError};
use std::alloc::{AllocError, Global};
use std::io;
use target::processor::Processor;

#[derive(Drop)]
pub struct Listener<P> {
    debugger: Debugger<P>,
    // There was no memory to go on: nothing is promised of the debugger until it begins anew. A flag, since it is kept for that all the same.
    stuck: bool,
}

impl<P: Processor + Drop> Listener<P> {
    pub fn new(debugger: Debugger<P>) -> Listener<P>
        ensures { (result.debugger ≡ debugger) × (result.stuck ≡ false) }
    {
        Listener {
            debugger,
            stuck: false,
        }
    }

    // Says a command, spelled by a text if there was memory for it, and answers how many steps it made.
    fn say(&mut self, command: Command, text: Result<Vec<u64>, AllocError>) -> Result<u64, Unsaid> {
        let begins = matches!(command, Command::Load(_));
        if self.stuck && !begins {
            return Err(Unsaid::Stuck);
        }
        let text = text?;
        match self.debugger.say(text.as_slice()) {
            Ok(steps) => {
                self.stuck = false;
                Ok(steps)
            }
            Err(SayError::Refused { why, .. }) => Err(Unsaid::Refused(Refused { command, why })),
            Err(SayError::NoMemory) => {
                self.stuck = true;
                Err(Unsaid::Stuck)
            }
        }
    }

    fn say_order(&mut self, heap: Global, order: Order) -> Result<u64, Unsaid> {
        self.say(Command::Order(order), write(heap, order))
    }

    // Says an order and prints what it shows.
    fn ask(&mut self, rt: &HostRuntime, order: Order) -> io::Result<()> {
        match self.say_order(rt.alloc(), order) {
            Ok(_) => self.show(rt, Showing::of(order)),
            Err(unsaid) => rt.println(unsaid),
        }
    }

    // Prints what the last command showed.
    fn show(&self, rt: &HostRuntime, showing: Showing) -> io::Result<()> {
        let Some(bytes) = self.debugger.shown() else {
            return Ok(());
        };
        let numbers = match numbers_of(rt.alloc(), bytes) {
            Ok(numbers) => numbers,
            Err(error) => return rt.println(Unsaid::from(error)),
        };
        let numbers = numbers.as_slice();
        match showing {
            Showing::Nothing => Ok(()),
            Showing::Place => match Place::shown(numbers) {
                Some(place) => rt.println(place),
                None => rt.println(Row(numbers)),
            },
            Showing::Registers => rt.println(Registers(numbers)),
            Showing::Words(from) => rt.println(Table {
                from,
                words: numbers,
            }),
            Showing::Time | Showing::Number | Showing::Outs => rt.println(Row(numbers)),
        }
    }
}

impl<P: Processor + Drop> Steered for Listener<P> {
    type Refusal = Unsaid;

    fn load(&mut self, heap: Global, program: &[Instr]) -> Result<(), Unsaid> {
        let text = write_load(heap, program);
        self.say(Command::Load(program.len() as u64), text)?;
        Ok(())
    }

    fn give(&mut self, heap: Global, more: &[u32]) -> Result<(), Unsaid> {
        let text = write_give(heap, more);
        self.say(Command::Give(more.len() as u64), text)?;
        Ok(())
    }

    fn forward(&mut self, heap: Global, n: u64) -> Result<u64, Unsaid> {
        self.say_order(heap, Order::Forward(n))
    }

    fn show_place(&mut self, rt: &HostRuntime) -> io::Result<()> {
        self.ask(rt, Order::Where)
    }

    fn show_registers(&mut self, rt: &HostRuntime) -> io::Result<()> {
        self.ask(rt, Order::Registers)
    }

    fn show_words(&mut self, rt: &HostRuntime, from: u64, count: u64) -> io::Result<()> {
        self.ask(rt, Order::Words { from, count })
    }

    fn show_outs(&mut self, rt: &HostRuntime, from: u64, count: u64) -> io::Result<()> {
        self.ask(rt, Order::Outs { from, count })
    }
}
