// Commands: what the debugger is asked.
use crate::breaks::Break;

// A command that holds all that it says.
#[derive(Clone, Copy, Debug, PartialEq, Eq)]
pub enum Order {
    Forward(u64),
    Back(u64),
    // On, up to so many steps, till a break holds.
    Run(u64),
    // Back likewise.
    Rerun(u64),
    // Back to right after the last step that changed a word.
    Changer(u64),
    Break(Break),
    // The break of that number.
    Drop(u64),
    Where,
    Registers,
    Words { from: u64, count: u64 },
    Outs { from: u64, count: u64 },
}

// A command as it is read. Programs and numbers stay in the text, where they can be taken out one by one: see `Cursor`.
#[derive(Clone, Copy, Debug, PartialEq, Eq)]
pub enum Command {
    // So many instructions.
    Load(u64),
    // So many numbers to come in, after all that was given.
    Give(u64),
    Order(Order),
}
