// A processor of our own, with 256 slots for kept states.
#![tactic(auto)]

pub mod acting;
pub mod arith;
mod checks;
mod copying;
pub mod emulator;
mod going;
mod keeping;
mod kept;
mod making;
mod pages;
mod reasons;
mod state;
mod steps;
mod stops;
mod store;
mod telling;
mod words;
mod writing;
