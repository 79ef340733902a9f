// How a program is listed for people.
//
// A line has the place of an instruction, the instruction with labels for the places that it names, and from where the place is jumped
// to and called. Labels stand on lines of their own above it, and an arrow in the margin is at the place where a processor is.
#![tactic(auto)]

mod branches;
mod columns;
mod labels;
mod lines;
mod statements;
#[cfg(test)]
mod tests;
mod window;

pub use window::Listing;
