//! Scripts: lines of steps are taken by a machine, and what each gives is written as a line.
#![tactic(auto)]

mod ending;
mod lines;
mod progress;
mod run;
mod writing;

pub use ending::WeaveEnd;
pub use run::weave;
pub use sc_outside::{Sink, Source, Steps};
