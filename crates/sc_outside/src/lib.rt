//! The outside, as the rest of the program sees it: sources, sinks and listeners that count their faults, gates, and a count of
//! steps.
#![tactic(auto)]

mod gate;
mod lines;
mod listen;
mod mem_listen;
mod memory;
mod outside;
mod reading;
mod standard;
mod steps;
#[cfg(test)]
mod tests;
mod writing;

pub use gate::{Gate, OpenGate, RestGate};
pub use lines::{line_without_feed, next_line};
pub use listen::Listen;
pub use mem_listen::MemListen;
pub use memory::{MemSink, MemSource};
pub use outside::{Failed, Sink, Source};
pub use reading::{ReadEnd, Taken, read_all};
pub use sc_base::Seq;
pub use standard::{StdSink, StdSource};
pub use steps::Steps;
pub use writing::write_all;
