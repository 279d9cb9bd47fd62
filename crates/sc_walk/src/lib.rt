//! Searches over the parts of a snapshot.
#![tactic(auto)]

mod candidate;
mod front;
mod ids;
mod laws;
mod ordering;
mod walking;

pub use laws::narrower_bounds_open_less;
pub use sc_page::{Page, Query};
pub use sc_shelf::Snapshot;
pub use walking::answer;
