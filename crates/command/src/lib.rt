// Commands, breaks and programs: the lowest layer, with the definitions of the processor and of the plain debugger.
#![tactic(auto)]

pub mod breaks;
pub mod byte;
pub mod code;
mod command_kinds;
pub mod commands;
mod instruction_kinds;
pub mod numbered;
pub mod reading;
mod spelled;
pub mod statements;
pub mod writing;
