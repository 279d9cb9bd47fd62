ghost use Rattle.std.specs.Prelude.{IfOk, MatchResult};
ghost use Rattle.sc_json.specs.Good.{Good};
ghost use Rattle.sc_load.specs.Load.{IsWellFormed};
ghost use Rattle.sc_load.specs.Prepared.{Replaces, IsReplaceFault};

use crate::fault::PrepareFault;
use crate::load::Load;
use crate::read::read_at;
use sc_base::Text;
use sc_item::ItemFault;
use sc_json::Json;
use std::alloc::Global;
use std::sync::Arc;

/// The load that puts the item which a tree is into the place of the one with this id. A tree that is no item is `BadItem` at
/// 0 with its fault; an item with another id is `BadItem` at 0 with `BadId`.
pub fn prepare_replace(
    alloc: Global,
    collection: &Text,
    id: &Text,
    tree: Json,
) -> Result<Load, PrepareFault>
    requires { Good tree }
    ensures answer { MatchResult result (Replaces collection.now id.now tree) (IsReplaceFault collection.now id.now tree) }
    ensures well_formed { IfOk result IsWellFormed }
{
    let item = read_at(alloc, collection, tree, 0)?;
    if item.id() != id {
        return Err(PrepareFault::BadItem {
            n: 0,
            fault: ItemFault::BadId,
        });
    }
    let collection = collection.try_clone(alloc)?;
    let item = Arc::new(alloc, item)?;
    Ok(Load::Replace { collection, item })
}
