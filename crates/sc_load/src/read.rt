ghost use Rattle.std.specs.Prelude.{MatchResult};
ghost use Rattle.sc_json.specs.Good.{Good};
ghost use Rattle.sc_item.specs.Reading.{IsItem};
ghost use Rattle.sc_load.specs.Prepared.{IsItemFault};

use crate::fault::PrepareFault;
use sc_base::Text;
use sc_item::{Item, ItemFault, read_item};
use sc_json::Json;
use std::alloc::Global;

/// The item that a tree is in a collection, or its fault as that of a load's item at this place.
pub(crate) fn read_at(
    alloc: Global,
    collection: &Text,
    tree: Json,
    place: u64,
) -> Result<Item, PrepareFault>
    requires { Good tree }
    ensures { MatchResult result (IsItem collection.now tree) (IsItemFault collection.now tree place) }
{
    match read_item(alloc, collection, tree) {
        Ok(item) => Ok(item),
        Err(ItemFault::OutOfMemory) => Err(PrepareFault::OutOfMemory),
        Err(fault) => Err(PrepareFault::BadItem { n: place, fault }),
    }
}
