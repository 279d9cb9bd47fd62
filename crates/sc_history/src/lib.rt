//! What a history of loads says of a catalogue: its content, the faults for which it refuses a load, its parts with their
//! stamps, additions and bounds, and what snapshots, tickets and installs are. There is no catalogue here: the definitions
//! stand in `specs/`, over lists alone, and each function of [`laws`] has one law as its contract.
#![tactic(auto)]

mod addition;
mod installed;
pub mod laws;

pub use addition::Addition;
pub use installed::Installed;
pub use sc_bounds::Bounds;
