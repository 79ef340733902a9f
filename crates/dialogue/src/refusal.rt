// Refusals as the user sees them: a number, and a few words.
ghost use Rattle.dialogue.specs.declared.refusal.Unsaid.TheVariants as unsaid;
ghost use Rattle.std.specs.Prelude.{◌≡◌};

use command::commands::{Command, Order};
use driver::Refusal;
use std::alloc::AllocError;
use std::fmt;

// A command that was refused, and why.
#[derive(Clone, Copy)]
pub struct Refused {
    pub command: Command,
    pub why: Refusal,
}

// Why a command was not done.
#[derive(Clone, Copy)]
pub enum Unsaid {
    // There was no memory to spell it.
    NoRoom,
    // The debugger has no memory to go on.
    Stuck,
    Refused(Refused),
}

impl From<AllocError> for Unsaid {
    ghost from_gives = { λ error u. u ≡ unsaid.NoRoom };

    fn from(_error: AllocError) -> Unsaid {
        Unsaid::NoRoom
    }
}

fn reason(command: Command, why: Refusal) -> &'static str {
    match (command, why) {
        (_, Refusal::NoCommand) => "this is no command",
        (_, Refusal::NotKnown) => "this command is not known yet",
        (Command::Give(_), Refusal::Full) => "at most 65536 numbers can come in",
        (Command::Order(Order::Break(_)), Refusal::Full) => "there are 64 breaks already",
        _ => "the reason has no words here",
    }
}

impl fmt::Display for Refused {
    fn fmt<W: fmt::Write>(&self, f: &mut fmt::Formatter<W>) -> fmt::Result {
        let number = u64::from(self.why);
        let reason = reason(self.command, self.why);
        write!(f, "refused {number}: {reason}")
    }
}

impl fmt::Display for Unsaid {
    fn fmt<W: fmt::Write>(&self, f: &mut fmt::Formatter<W>) -> fmt::Result {
        match self {
            Unsaid::NoRoom => f.write_str("there is no memory left for that"),
            Unsaid::Stuck => f.write_str("there is no memory left: load a program to begin anew"),
            Unsaid::Refused(refused) => write!(f, "{refused}"),
        }
    }
}
