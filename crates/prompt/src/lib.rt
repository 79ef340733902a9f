// What is typed at the prompt: requests, and mistakes with the place where they stand.
#![tactic(auto)]

mod cursor;
pub mod mistakes;
pub mod quantities;
pub mod requests;
pub mod statements;
pub mod verbs;
mod words;
