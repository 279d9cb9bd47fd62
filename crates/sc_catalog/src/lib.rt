//! A catalogue of items: the history of its loads, its collections and its parts, and what one load makes of them.
#![tactic(auto)]

mod booked;
mod catalogue;
mod come;
mod entry;
mod groups;
mod indexed;
pub mod laws;
mod limits;
mod next;
mod parts;
mod refusal;

pub use catalogue::Catalogue;
pub use entry::{Entry, Published};
pub use sc_base::{Seq, Text};
pub use sc_bounds::Bounds;
pub use sc_cut::PartName;
pub use sc_history::Installed;
pub use sc_load::{Item, Load, LoadFault};
pub use sc_shelf::{Snapshot, Ticket, Tight};
