//! The server: workers that serve the connections of listeners, each with a pass of one desk, and workers that tighten the
//! bounds of the parts that the loads of these connections change. Over a kept catalogue there are no such tighteners.
#![tactic(auto)]

mod all;
mod idle;
mod keeper;
mod keeping;
mod listening;
mod seat;
mod staff;
mod worker;

pub use all::{Served, serve_all};
pub use keeping::{KeptServed, keep_all};
