ghost use Rattle.std.specs.Prelude.{map, IfOk, MatchResult};
ghost use Rattle.std.specs.Arc.{arc_value};
ghost use Rattle.std.specs.List.{All};
ghost use Rattle.sc_json.specs.Good.{Good};
ghost use Rattle.sc_load.specs.Features.{trees_of};
ghost use Rattle.sc_load.specs.Items.{AreRead};
ghost use Rattle.sc_load.specs.Load.{IsWellFormed};
ghost use Rattle.sc_load.specs.Prepared.{Puts, IsItemsFault};

use crate::fault::PrepareFault;
use crate::features::into_trees;
use crate::load::Load;
use crate::read::read_at;
use sc_base::{Seq, Text};
use sc_item::Item;
use sc_json::Json;
use std::alloc::Global;
use std::sync::Arc;

/// The most items of a load.
const MOST_ITEMS: usize = 10_000;

/// The items that trees are in a collection.
fn read_items(
    alloc: Global,
    collection: &Text,
    trees: Vec<Json>,
) -> Result<Vec<Arc<Item>>, PrepareFault>
    requires { All Good trees.items }
    ensures { MatchResult result (λ items. AreRead collection.now trees.items (map arc_value items.items)) (IsItemsFault collection.now trees.items) }
{
    let count = trees.len();
    if count > MOST_ITEMS {
        return Err(PrepareFault::TooManyItems {
            count: count as u64,
        });
    }
    let mut items = Vec::with_capacity(alloc, count)?;
    for tree in trees {
        let item = read_at(alloc, collection, tree, items.len() as u64)?;
        items.push(Arc::new(alloc, item)?)?;
    }
    Ok(items)
}

/// The load that inserts or upserts the items which a tree brings into a collection: the features of a FeatureCollection
/// with a list `features` (RFC 7946 §3.3), in their order, or the one item that any other tree is. Each item is what
/// `read_item` gives for its tree, and no tree is copied. More than 10,000 items are `TooManyItems`; else the first tree that is
/// no item is `BadItem`. Two items may have one id: that is judged where the load is published.
pub fn prepare_items(
    alloc: Global,
    collection: &Text,
    upsert: bool,
    tree: Json,
) -> Result<Load, PrepareFault>
    requires { Good tree }
    ensures answer { MatchResult result (Puts collection.now upsert (trees_of tree)) (IsItemsFault collection.now (trees_of tree)) }
    ensures well_formed { IfOk result IsWellFormed }
{
    let trees = into_trees(alloc, tree)?;
    let items = Seq::of(read_items(alloc, collection, trees)?);
    let collection = collection.try_clone(alloc)?;
    if upsert {
        Ok(Load::Upsert { collection, items })
    } else {
        Ok(Load::Insert { collection, items })
    }
}
