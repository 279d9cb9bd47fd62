//! What the words of the command line ask for.
#![tactic(auto)]

mod command;
pub mod laws;
mod number;
mod words;

pub use command::{Command, Keeping, Serving, command_of, keeping_of, serving_of};
