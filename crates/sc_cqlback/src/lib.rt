//! What is written of a filter is read token by token as it was written, and each token with its value.
#![tactic(auto)]

mod laws;

pub use laws::{one_spelling, values_are_read, written_is_read};
