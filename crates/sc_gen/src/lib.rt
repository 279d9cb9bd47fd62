//! Loads that are made of numbers alone: the same for the same numbers, on every machine.
#![tactic(auto)]

mod document;
mod draw;
mod loads;
mod parts;

pub use loads::generate;
