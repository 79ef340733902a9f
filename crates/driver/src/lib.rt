// The driver: what is said to the debugger is carried out, its acts carried to a processor and what comes of them back, until the command is over.
#![tactic(auto)]

mod acts;
mod debugger;
mod event;
mod refusal;
mod rows;
mod screen;

pub use debugger::Debugger;
pub use refusal::{Refusal, SayError};
