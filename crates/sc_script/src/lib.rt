//! Steps of scripts: which line is which step, and which is none.
#![tactic(auto)]

mod kind;
mod loads;
mod members;
mod read;
mod step;
mod steps;

pub use read::read_step;
pub use sc_base::Text;
pub use sc_json::Json;
pub use step::{Draft, Step, StepFault};
