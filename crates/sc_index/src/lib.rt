//! An index of items, which finds an item by its collection and its id.
#![tactic(auto)]

mod index;
mod places;

pub use index::ItemIndex;
pub use sc_base::Text;
pub use sc_item::Item;
