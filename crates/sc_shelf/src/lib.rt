//! The parts that a catalogue keeps, and what loads and installs make of them. A list of parts never changes: each change
//! makes a new list, which shares the parts that stay, and the items of those that don't.
#![tactic(auto)]

mod change;
mod collections;
mod find;
mod install;
mod kept;
pub mod laws;
mod names;
mod parts;
mod publish;
mod snapshot;
mod split;
mod ticket;
mod touch;
mod version;

pub use change::PartChange;
pub use collections::{Collections, KeptCollection};
pub use kept::KeptPart;
pub use parts::Parts;
pub use sc_base::Seq;
pub use sc_bounds::Bounds;
pub use sc_cut::{Cut, PartName};
pub use sc_history::{Addition, Installed};
pub use sc_json::Json;
pub use sc_outside::Steps;
pub use sc_part::{Item, PartVersion, Text};
pub use snapshot::Snapshot;
pub use ticket::{Ticket, Tight};
