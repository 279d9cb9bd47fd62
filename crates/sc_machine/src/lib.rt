//! The machine of a script: what each step makes of its catalogue, its snapshots and its tickets, and what it gives.
#![tactic(auto)]

mod drafts;
mod installs;
mod loads;
mod looks;
mod machine;
mod searches;

pub use machine::Machine;
pub use sc_outcome::Outcome;
pub use sc_script::Step;
