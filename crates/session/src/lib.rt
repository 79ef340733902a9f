// A debugging session on any processor: what each command does to it.
#![tactic(auto)]

pub mod debugger;
pub mod show;
