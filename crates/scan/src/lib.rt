// What the readers of text share: fronts of bytes that pass a test, and numbers.
#![tactic(auto)]

pub mod fronts;
pub mod numbers;
