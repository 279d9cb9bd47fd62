ghost use Rattle.std.specs.Prelude.{◌≡◌, ◌≤◌, map, IfOk};
ghost use Rattle.std.specs.Arc.{arc_value};
ghost use Rattle.sc_load.specs.Load.{IsWellFormed};
ghost use Rattle.sc_gen.specs.Document as spec;
ghost use Rattle.sc_gen.specs.Generated.{IsDocument, IsSpelled, AreGeneratedItems, IsGenerated};

use crate::document::{collection_of, document_of};
use crate::draw::Draw;
use rand_pcg::Lcg64Xsh32;
use sc_base::{Seq, Text};
use sc_item::{Item, read_item};
use sc_json::read_json;
use sc_load::Load;
use std::alloc::{AllocError, Global};
use std::sync::Arc;

/// The item that a text spells in a collection.
fn item_of(alloc: Global, collection: &Text, text: &str) -> Result<Item, AllocError>
    ensures { IfOk result (IsSpelled collection.now text.now) }
{
    // The documents that are made here are items, so that nothing but memory can be wanting.
    let Ok(tree) = read_json(alloc, text.as_bytes()) else {
        return Err(AllocError);
    };
    match read_item(alloc, collection, tree) {
        Ok(item) => Ok(item),
        Err(_) => Err(AllocError),
    }
}

/// The items of a load, of which there are so many.
fn items_of(
    alloc: Global,
    collection: &Text,
    seed: u64,
    load: u32,
    count: u32,
) -> Result<Vec<Arc<Item>>, AllocError>
    requires { collection.now ≡ spec.collection_of load }
    ensures { IfOk result (λ items. AreGeneratedItems seed load count (map arc_value items.items)) }
{
    let mut words = Lcg64Xsh32::new(seed, load as u64);
    let mut items = Vec::with_capacity(alloc, count as usize)?;
    for number in 0..count {
        let draw = Draw::of(&mut words);
        let text = document_of(alloc, collection, load, number, &draw)?;
        let item = item_of(alloc, collection, text.as_str())?;
        items.push(Arc::new(alloc, item)?)?;
    }
    Ok(items)
}

/// The load of this number that a seed makes: an insert of `count` items, of which there may be at most 10,000, into one of
/// the collections `g0` to `g3`. Each item is a point with a time in the years 2023 and 2024 and an `eo:cloud_cover` of 0 to
/// 100 with two decimals, all three drawn from a PCG32 whose state is started by the seed and whose stream is the load's
/// number; its id is the load's number, a hyphen, and its place in the load, counted from 0.
pub fn generate(alloc: Global, seed: u64, load: u32, count: u32) -> Result<Load, AllocError>
    requires { count ≤ 10000 }
    ensures load { IfOk result (IsGenerated seed load count) }
    ensures well_formed { IfOk result IsWellFormed }
{
    let collection = collection_of(alloc, load)?;
    let items = Seq::of(items_of(alloc, &collection, seed, load, count)?);
    Ok(Load::Insert { collection, items })
}
