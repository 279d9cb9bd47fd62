//! Loads: the changes that a catalogue takes, how they are read of JSON trees, and why they are refused.
#![tactic(auto)]

mod collection;
mod fault;
mod features;
mod items;
mod laws;
mod load;
mod patch;
mod read;
mod replace;
mod trees;
mod words;

pub use collection::prepare_collection;
pub use fault::{LoadFault, PrepareFault};
pub use items::prepare_items;
pub use laws::{
    items_have_no_fault, items_read_again, one_collection, one_first_bad_item, one_list_of_items,
};
pub use load::Load;
pub use patch::patch_item;
pub use replace::prepare_replace;
pub use sc_base::{Seq, Text};
pub use sc_cut::Cut;
pub use sc_item::{Item, ItemFault};
pub use sc_json::Json;
