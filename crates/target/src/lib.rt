// What the processor is told and what it tells.
#![tactic(auto)]

pub mod answers;
pub mod processor;
pub mod reasons;
pub mod statements;
pub mod texts;
