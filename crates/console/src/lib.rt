// The conversation at the keyboard: what is typed is read, done by what it steers, as a session on any processor, and shown.
#![tactic(auto)]

pub mod conversation;
pub mod files;
pub mod help;
pub mod input;
mod sessions;
pub mod steered;
pub mod tables;
