// Programs' files: what is read of one, and why it gives no program.
#![tactic(auto)]

mod failure;
mod reading;

pub use failure::Failure;
pub use reading::read;
