ghost use Rattle.std.specs.Prelude.{◌≡◌, ◌-◌, ◌^◌, min, map, length, IfOk};
ghost use Rattle.sc_json.specs.Compact.{compact};
ghost use Rattle.std.specs.Arc.{arc_value};
ghost use Rattle.sc_load.specs.Load.{collection_of, items_of, documents_size, size_of};

use sc_base::{Seq, Text};
use sc_cut::Cut;
use sc_item::Item;
use sc_json::{Json, write_json};
use std::alloc::{AllocError, Global};
use std::slice;
use std::sync::Arc;

/// A change of a catalogue. A catalogue takes a well-formed load alone: its trees are good, it has at most 10,000 items, each
/// of them is what its tree is in the load's collection, and the id and the cut of a new collection are those of its tree.
/// What the `prepare_` calls give is well-formed, and so is a load of one of the kinds that hold no item and no tree.
#[derive(Drop)]
pub enum Load {
    /// A collection is added, with its document.
    AddCollection {
        id: Text,
        cut: Cut,
        tree: Json,
    },
    /// A collection goes with all its items.
    DropCollection {
        id: Text,
    },
    /// Items are added, none of which may be there.
    Insert {
        collection: Text,
        items: Seq<Arc<Item>>,
    },
    /// Items are added, and stand in the place of those that are there.
    Upsert {
        collection: Text,
        items: Seq<Arc<Item>>,
    },
    /// An item stands in the place of the one with its id, which must be there.
    Replace {
        collection: Text,
        item: Arc<Item>,
    },
    /// The tree of an item that must be there is merged with a patch (RFC 7396).
    Patch {
        collection: Text,
        id: Text,
        patch: Json,
    },
    /// An item that must be there goes.
    Delete {
        collection: Text,
        id: Text,
    },
}

impl Load {
    /// The id of the collection that the load changes.
    pub fn collection(&self) -> &Text
        ensures { result.now ≡ collection_of self.now }
    {
        match self {
            Load::AddCollection { id, .. } => id,
            Load::DropCollection { id } => id,
            Load::Insert { collection, .. } => collection,
            Load::Upsert { collection, .. } => collection,
            Load::Replace { collection, .. } => collection,
            Load::Patch { collection, .. } => collection,
            Load::Delete { collection, .. } => collection,
        }
    }

    /// The items that the load brings, in its order. Of a patch they are known only once it is merged.
    pub fn items(&self) -> &[Arc<Item>]
        ensures { map arc_value result.now ≡ items_of self.now }
    {
        match self {
            Load::Insert { items, .. } => items.as_slice(),
            Load::Upsert { items, .. } => items.as_slice(),
            Load::Replace { item, .. } => slice::from_ref(item),
            _ => &[],
        }
    }

    /// The bytes that the load takes in a history: those of its items' documents, of its collection's compact tree, or of
    /// its compact patch, and none of any other load. 2^64 - 1 stands for every greater number.
    pub fn size(&self, alloc: Global) -> Result<u64, AllocError>
        ensures { IfOk result (λ bytes. bytes ≡ min (size_of self.now) (2 ^ 64 - 1)) }
    {
        match self {
            Load::AddCollection { tree, .. } => tree_size(alloc, tree),
            Load::Patch { patch, .. } => tree_size(alloc, patch),
            _ => Ok(documents_size(self.items())),
        }
    }
}

/// The bytes of a tree's compact text.
fn tree_size(alloc: Global, tree: &Json) -> Result<u64, AllocError>
    ensures { IfOk result (λ bytes. bytes ≡ min (length (compact tree.now)) (2 ^ 64 - 1)) }
{
    let text = write_json(alloc, tree)?;
    Ok(text.len() as u64)
}

/// The bytes of the items' documents.
fn documents_size(items: &[Arc<Item>]) -> u64
    ensures { result ≡ min (documents_size (map arc_value items.now)) (2 ^ 64 - 1) }
{
    let mut bytes: u64 = 0;
    for item in items {
        bytes = bytes.saturating_add(item.doc().len() as u64);
    }
    bytes
}
