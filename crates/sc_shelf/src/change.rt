use sc_base::{Seq, Text};
use sc_cut::PartName;
use sc_item::Item;
use std::sync::Arc;

/// What a load does to one part.
#[derive(Drop)]
pub struct PartChange {
    /// The part's name. There may be no such part before.
    pub name: PartName,
    /// The ids whose items go. An id that no item of the part has takes nothing.
    pub gone: Seq<Text>,
    /// The items that come, in any order.
    pub come: Seq<Arc<Item>>,
}
