//! A connection: its requests are answered one after the other, each in turns of its own.
#![tactic(auto)]

mod ask;
mod clerk;
mod ending;
pub mod laws;
mod serving;

pub use ask::Ask;
pub use clerk::Clerk;
pub use ending::ConnEnd;
pub use serving::{give_up, serve};
