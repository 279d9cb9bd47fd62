//! The desk of a catalogue: its passes, and the four calls by which whoever is lent one takes turns.
#![tactic(auto)]

mod calls;
mod desk_pass;
pub mod laws;

pub use calls::{LoadRefused, publish, put_tight, take_look, take_snapshot};
pub use desk_pass::DeskPass;
pub use sc_catalog::{
    Catalogue, Installed, Load, LoadFault, PartName, Published, Snapshot, Ticket, Tight,
};
pub use sc_turn::{Card, Desk, Pass, close, make};
