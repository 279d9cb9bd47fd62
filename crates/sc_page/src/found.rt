use sc_base::Seq;
use sc_item::Item;
use sc_sort::KeyList;
use std::sync::Arc;

/// The page of a search.
#[derive(Drop)]
pub struct Page {
    /// The items in the order of the search.
    pub items: Seq<Arc<Item>>,
    /// Behind which place the next page begins; none where no item is left.
    pub next: Option<KeyList>,
}
