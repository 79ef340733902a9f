// The conversation at the keyboard through the machine: what is typed is read, said to a debugger on any processor, and what it shows is printed.
#![tactic(auto)]

pub mod conversation;
mod listener;
mod place;
mod refusal;
mod showing;
mod shown;
