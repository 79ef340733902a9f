// What is typed and what is shown, line by line.
ghost use Rattle.std.specs.Prelude.{◌≡◌, None};

use crate::files::program_of;
use crate::help;
use crate::input::Input;
use crate::steered::Steered;
use prompt::requests::{Numbers, Request, read_request};
use std::alloc::Global;
use std::io;
use std::str::from_utf8;

// Many steps take long: after so many it says how far it is.
const STEPS_BETWEEN_SIGNS: u64 = 250_000_000;

#[derive(Drop)]
pub struct Conversation<S> {
    pub steered: S,
    pub echo: bool,
    // How far the last forward was to go.
    pub last_move: Option<u64>,
}

impl<S: Steered + Drop> Conversation<S> {
    pub fn new(steered: S, echo: bool) -> Conversation<S>
        ensures { (result.steered ≡ steered) × (result.echo ≡ echo) × (result.last_move ≡ None) }
    {
        Conversation {
            steered,
            echo,
            last_move: None,
        }
    }

    // Begins with the program of a file, if one is named.
    pub fn open(&mut self, rt: &HostRuntime, file: &Option<String>) -> io::Result<()> {
        match file {
            Some(name) => self.load(rt, name.as_str())?,
            None => rt.println("no program yet: load FILE")?,
        }
        rt.println("'help' lists the commands")
    }

    // Carries out line after line, to the end of the input or quit.
    pub fn hold(&mut self, rt: &HostRuntime) -> io::Result<()> {
        let mut input = Input::new(rt, self.echo)?;
        for _ in 0..u64::MAX {
            if !input.next_line(rt)? {
                break;
            }
            match read_request(input.text()) {
                Ok(Request::Quit) => return Ok(()),
                Ok(request) => self.answer(rt, request)?,
                Err(mistake) => println!(rt; "{mistake}")?,
            }
        }
        // What comes after the prompt begins a line of its own.
        if self.echo { Ok(()) } else { rt.println("") }
    }

    fn answer(&mut self, rt: &HostRuntime, request: Request<'_>) -> io::Result<()> {
        match request {
            Request::Nothing | Request::Quit => Ok(()),
            Request::Repeat => self.repeat(rt),
            Request::Load(name) => self.load_named(rt, name),
            Request::Give(numbers) => match self.give(rt.alloc(), numbers) {
                Ok(()) => Ok(()),
                Err(refusal) => rt.println(refusal),
            },
            Request::Forward(n) => self.forward(rt, n),
            Request::Where => self.steered.show_place(rt),
            Request::Registers => self.steered.show_registers(rt),
            Request::Words(from, count) => self.steered.show_words(rt, from, count),
            Request::Outs(from, count) => self.steered.show_outs(rt, from, count),
            Request::Help(topic) => help::show(rt, topic),
        }
    }

    fn load_named(&mut self, rt: &HostRuntime, name: &[u8]) -> io::Result<()> {
        match from_utf8(name) {
            Ok(name) => self.load(rt, name),
            Err(_) => rt.println("the name of the file is no text"),
        }
    }

    // Where there is no such program, it stays with the one before.
    fn load(&mut self, rt: &HostRuntime, name: &str) -> io::Result<()> {
        let Some(assembly) = program_of(rt, name)? else {
            return Ok(());
        };
        let program = assembly.program.as_slice();
        match self.steered.load(rt.alloc(), program) {
            Ok(()) => {
                let count = program.len();
                let plural = if count == 1 { "" } else { "s" };
                println!(rt; "{name}: {count} instruction{plural}")
            }
            Err(refusal) => self.steered.show_not_loaded(rt, name, refusal),
        }
    }

    fn give(&mut self, heap: Global, numbers: Numbers<'_>) -> Result<(), S::Refusal> {
        let more = numbers.to_vec(heap)?;
        self.steered.give(heap, more.as_slice())
    }

    fn repeat(&mut self, rt: &HostRuntime) -> io::Result<()> {
        match self.last_move {
            Some(n) => self.forward(rt, n),
            None => rt.println("nothing to repeat yet: an empty line does the last forward again"),
        }
    }

    // Goes on part by part, says now and then how far it is, and shows where it came to.
    fn forward(&mut self, rt: &HostRuntime, n: u64) -> io::Result<()> {
        self.last_move = Some(n);
        let mut left = n;
        while left > 0 {
            let part = left.min(STEPS_BETWEEN_SIGNS);
            match self.steered.forward(rt.alloc(), part) {
                Ok(by) if by < part => break,
                Ok(_) => left -= part,
                Err(refusal) => return self.steered.show_not_gone(rt, refusal),
            }
            if left > 0 {
                eprintln!(rt; "{left} steps to go")?;
            }
        }
        self.steered.show_place(rt)
    }
}
