//! The loads of the stories, made of JSON texts as a client would send them. All are of the collection `s2` but those of
//! [`collection`].
ghost use Rattle.std.specs.Prelude.{IfOk};
ghost use Rattle.sc_json.specs.Good.{Good};
ghost use Rattle.sc_load.specs.Load.{IsWellFormed};

use sc_catalog::{Load, Text};
use sc_json::{Json, read_json};
use sc_load::{PrepareFault, prepare_collection, prepare_items, prepare_replace};
use std::alloc::{AllocError, Global};

/// The text of a scene: its id, its time, and a point whose longitude and latitude are both so many degrees.
pub fn scene(alloc: Global, id: &str, datetime: &str, degrees: u32) -> Result<String, AllocError> {
    format!(in alloc;
        "{{\"type\":\"Feature\",\"id\":\"{id}\",\"geometry\":{{\"type\":\"Point\",\"coordinates\":[{degrees},{degrees}]}},\"properties\":{{\"datetime\":\"{datetime}\"}}}}"
    )
}

/// The tree of a text.
fn tree(alloc: Global, text: &str) -> anyhow::Result<Json>
    ensures { IfOk result Good }
{
    match read_json(alloc, text.as_bytes()) {
        Ok(tree) => Ok(tree),
        Err(_) => anyhow::bail!("no JSON"),
    }
}

/// The load, where one was prepared.
fn prepared(load: Result<Load, PrepareFault>) -> anyhow::Result<Load>
    requires { IfOk load IsWellFormed }
    ensures { IfOk result IsWellFormed }
{
    match load {
        Ok(load) => Ok(load),
        Err(_) => anyhow::bail!("no load"),
    }
}

/// A new collection, cut as the word says.
pub fn collection(alloc: Global, id: &str, cut: &str) -> anyhow::Result<Load>
    ensures { IfOk result IsWellFormed }
{
    let text = format!(in alloc; "{{\"id\":\"{id}\",\"catalogue:cut\":\"{cut}\"}}")?;
    let tree = tree(alloc, text.as_str())?;
    prepared(prepare_collection(alloc, tree))
}

/// Items that are inserted, or else upserted: one, or those of a feature collection.
pub fn items(alloc: Global, upsert: bool, text: &str) -> anyhow::Result<Load>
    ensures { IfOk result IsWellFormed }
{
    let tree = tree(alloc, text)?;
    let collection = Text::from_str(alloc, "s2")?;
    prepared(prepare_items(alloc, &collection, upsert, tree))
}

/// An item in the place of the one with its id.
pub fn replacement(alloc: Global, id: &str, text: &str) -> anyhow::Result<Load>
    ensures { IfOk result IsWellFormed }
{
    let tree = tree(alloc, text)?;
    let collection = Text::from_str(alloc, "s2")?;
    let id = Text::from_str(alloc, id)?;
    prepared(prepare_replace(alloc, &collection, &id, tree))
}

/// A patch of an item.
pub fn patch(alloc: Global, id: &str, text: &str) -> anyhow::Result<Load>
    ensures { IfOk result IsWellFormed }
{
    let patch = tree(alloc, text)?;
    let collection = Text::from_str(alloc, "s2")?;
    let id = Text::from_str(alloc, id)?;
    Ok(Load::Patch {
        collection,
        id,
        patch,
    })
}

/// An item goes.
pub fn deletion(alloc: Global, id: &str) -> anyhow::Result<Load>
    ensures { IfOk result IsWellFormed }
{
    let collection = Text::from_str(alloc, "s2")?;
    let id = Text::from_str(alloc, id)?;
    Ok(Load::Delete { collection, id })
}

/// The collection goes.
pub fn dropped(alloc: Global) -> anyhow::Result<Load>
    ensures { IfOk result IsWellFormed }
{
    let id = Text::from_str(alloc, "s2")?;
    Ok(Load::DropCollection { id })
}
