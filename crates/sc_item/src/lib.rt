//! STAC items: what a tree has to be to be one, and what a merge patch makes of a tree.
#![tactic(auto)]

mod fault;
mod item;
mod laws;
mod line;
mod names;
mod parts;
mod patch;
mod places;
mod read;
mod shape;
mod times;
mod trees;
mod whole;
mod words;

pub use fault::ItemFault;
pub use item::Item;
pub use laws::one_item_a_line;
pub use line::read_line;
pub use names::first_repeat;
pub use patch::merge_patch;
pub use read::read_item;
pub use sc_base::{Seq, Text};
