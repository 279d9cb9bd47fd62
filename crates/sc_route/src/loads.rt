ghost use Rattle.std.specs.Prelude.{IfOk, IsUtf8, MatchResult};
ghost use Rattle.sc_load.specs.Load.{IsWellFormed};
ghost use Rattle.sc_place.specs.declared.operation.Operation.TheVariants as asks;
ghost use Rattle.sc_route.specs.Jobs.{Brings, Fails};

use crate::body::body_tree;
use crate::pairs::{pairs_of, says_upsert};
use sc_base::Text;
use sc_http::Request;
use sc_load::{Load, prepare_collection, prepare_items, prepare_replace};
use sc_refusal::RouteFault;
use std::alloc::Global;

/// The load that adds the collection of the body.
pub fn added_collection(alloc: Global, request: &Request) -> Result<Load, RouteFault>
    ensures answer { MatchResult result (Brings request.now asks.AddCollection) (Fails request.now asks.AddCollection) }
    ensures formed { IfOk result IsWellFormed }
{
    let tree = body_tree(alloc, request)?;
    let load = prepare_collection(alloc, tree)?;
    Ok(load)
}

/// The load that inserts the items of the body, or upserts them where the query says so.
pub fn added_items(alloc: Global, collection: &Text, request: &Request) -> Result<Load, RouteFault>
    requires { IsUtf8 request.now.target }
    ensures answer { MatchResult result (Brings request.now (asks.AddItems collection.now)) (Fails request.now (asks.AddItems collection.now)) }
    ensures formed { IfOk result IsWellFormed }
{
    let tree = body_tree(alloc, request)?;
    let pairs = pairs_of(alloc, request.target.as_slice())?;
    let upsert = says_upsert(pairs.as_slice());
    let load = prepare_items(alloc, collection, upsert, tree)?;
    Ok(load)
}

/// The load that replaces an item by that of the body.
pub fn replaced_item(
    alloc: Global,
    collection: &Text,
    id: &Text,
    request: &Request,
) -> Result<Load, RouteFault>
    ensures answer { MatchResult result
        (Brings request.now (asks.ReplaceItem collection.now id.now))
        (Fails request.now (asks.ReplaceItem collection.now id.now)) }
    ensures formed { IfOk result IsWellFormed }
{
    let tree = body_tree(alloc, request)?;
    let load = prepare_replace(alloc, collection, id, tree)?;
    Ok(load)
}

/// The load that patches an item by the tree of the body.
pub fn patched_item(
    alloc: Global,
    collection: Text,
    id: Text,
    request: &Request,
) -> Result<Load, RouteFault>
    ensures answer { MatchResult result
        (Brings request.now (asks.PatchItem collection id))
        (Fails request.now (asks.PatchItem collection id)) }
    ensures formed { IfOk result IsWellFormed }
{
    let patch = body_tree(alloc, request)?;
    Ok(Load::Patch {
        collection,
        id,
        patch,
    })
}
