//! Versions of the parts of a catalogue: shared items in the order of a scan, with an index of their ids and their hull.
#![tactic(auto)]

mod entry;
mod hull;
mod index;
pub mod laws;
mod merge;
mod order;
mod version;

pub use hull::{hull_of_items, reach_of};
pub use order::fits;
pub use sc_base::Text;
pub use sc_bounds::{Bounds, Reach};
pub use sc_cut::PartName;
pub use sc_item::Item;
pub use sc_outside::Steps;
pub use version::PartVersion;
