//! A worker that tightens the bounds of parts. It hears of parts by notices; of each it takes a look, finds the hull of what it
//! saw outside the lock, and installs it.
#![tactic(auto)]

mod count;
pub mod laws;
mod outcome;
mod part;
mod turns;

pub use count::{WorkCount, WorkDone};
pub use sc_desk::{DeskPass, PartName};
pub use sc_notice::NoticePass;
pub use sc_outside::{Gate, OpenGate, RestGate};
pub use turns::work;
