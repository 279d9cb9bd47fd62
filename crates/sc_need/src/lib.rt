//! What a search needs of an item, and which parts of a catalogue may have one.
#![tactic(auto)]

mod join;
pub mod laws;
mod matching;
mod need;
mod predicate;
mod search;

pub use matching::may_match;
pub use need::{Limits, Need};
pub use search::need_of;
