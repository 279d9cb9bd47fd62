ghost use Rattle.sc_json.specs.Good.{Good};
ghost use Rattle.sc_item.specs.Reading.{Answers};

use crate::fault::ItemFault;
use crate::item::Item;
use crate::parts::parts_of;
use crate::whole::with_collection;
use sc_base::Text;
use sc_json::Json;
use std::alloc::Global;

/// The item that a tree is in a collection, or the first fault for which it is none ([`ItemFault`]). A tree without a member
/// `collection` gets one, as the last. All else is kept as it is, and only what is named there is read.
pub fn read_item(alloc: Global, collection: &Text, tree: Json) -> Result<Item, ItemFault>
    requires { Good tree }
    ensures { Answers collection.now tree result }
{
    let parts = parts_of(alloc, collection, &tree)?;
    let tree = with_collection(alloc, collection, tree)?;
    let item = Item::of(alloc, collection, parts, tree)?;
    Ok(item)
}
