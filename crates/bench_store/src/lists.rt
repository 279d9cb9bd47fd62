//! One sorted list of items a month, as the plainest store of months would keep them.
use sc_catalog::Item;
use sc_cut::{Cut, key_of};
use std::alloc::{AllocError, Global};
use std::cmp::Ordering;
use std::sync::Arc;

/// The items whose starts have one key: the latest first, and of one start by id.
#[derive(Drop)]
struct SortedList {
    key: i32,
    items: Vec<Arc<Item>>,
}

/// Lists in the order of their keys.
#[derive(Drop)]
pub struct SortedLists {
    lists: Vec<SortedList>,
}

impl SortedLists {
    pub fn new(alloc: Global) -> SortedLists {
        SortedLists {
            lists: Vec::new(alloc),
        }
    }

    /// The place of the list with the key, which is made if it isn't there.
    fn place_of(&mut self, alloc: Global, key: i32) -> Result<usize, AllocError> {
        match self.lists.binary_search_by_key(&key, |list| list.key) {
            Ok(place) => Ok(place),
            Err(place) => {
                let items = Vec::new(alloc);
                self.lists.insert(place, SortedList { key, items })?;
                Ok(place)
            }
        }
    }

    /// Puts the item into the list of its month.
    pub fn put(&mut self, alloc: Global, item: &Arc<Item>) -> Result<(), AllocError> {
        let place = self.place_of(alloc, key_of(Cut::Month, item.start()))?;
        if let Some(SortedList { items, .. }) = self.lists.get_mut(place) {
            let at = items.partition_point(|other| is_before(other, item));
            items.insert(at, Arc::try_clone(item)?)?;
        }
        Ok(())
    }
}

fn is_before(a: &Item, b: &Item) -> bool {
    match b.start().cmp(&a.start()) {
        Ordering::Less => true,
        Ordering::Equal => a.id() < b.id(),
        Ordering::Greater => false,
    }
}
