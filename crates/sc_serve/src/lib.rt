//! The STAC API of a catalogue on one connection.
#![tactic(auto)]

mod answering;
mod connection;
mod desk;
mod faults;
pub mod laws;
mod loading;
mod lone;
mod notifying;
mod reading;

pub use connection::{pipe, serve_connection, serve_desk};
pub use desk::{Desk, Tried};
pub use lone::LoneDesk;
pub use notifying::NotifyingPass;
pub use sc_session::ConnEnd;
