//! Loads of the collection `s2`, made of JSON texts as a client would send them.
ghost use Rattle.std.specs.Prelude.{IfOk};
ghost use Rattle.sc_json.specs.Good.{Good};
ghost use Rattle.sc_load.specs.Load.{IsWellFormed};

use sc_base::Text;
use sc_desk::Load;
use sc_json::{Json, read_json};
use sc_load::{PrepareFault, prepare_collection, prepare_items};
use std::alloc::{AllocError, Global};

/// The text of a scene: its id, its time, and a point whose longitude and latitude are both so many degrees.
pub fn scene(alloc: Global, id: &str, datetime: &str, degrees: u32) -> Result<String, AllocError> {
    format!(in alloc;
        "{{\"type\":\"Feature\",\"id\":\"{id}\",\"geometry\":{{\"type\":\"Point\",\"coordinates\":[{degrees},{degrees}]}},\"properties\":{{\"datetime\":\"{datetime}\"}}}}"
    )
}

/// The tree of a text.
fn tree(alloc: Global, text: &str) -> anyhow::Result<Json>
    ensures { IfOk result Good }
{
    match read_json(alloc, text.as_bytes()) {
        Ok(tree) => Ok(tree),
        Err(_) => anyhow::bail!("no JSON"),
    }
}

/// The load, where one was prepared.
fn prepared(load: Result<Load, PrepareFault>) -> anyhow::Result<Load>
    requires { IfOk load IsWellFormed }
    ensures { IfOk result IsWellFormed }
{
    match load {
        Ok(load) => Ok(load),
        Err(_) => anyhow::bail!("no load"),
    }
}

/// The collection, whose items are kept by months.
pub fn collection(alloc: Global) -> anyhow::Result<Load>
    ensures { IfOk result IsWellFormed }
{
    let tree = tree(alloc, "{\"id\":\"s2\",\"catalogue:cut\":\"month\"}")?;
    prepared(prepare_collection(alloc, tree))
}

/// A scene is inserted.
pub fn insertion(alloc: Global, id: &str, datetime: &str, degrees: u32) -> anyhow::Result<Load>
    ensures { IfOk result IsWellFormed }
{
    let scene = scene(alloc, id, datetime, degrees)?;
    let tree = tree(alloc, scene.as_str())?;
    let collection = Text::from_str(alloc, "s2")?;
    prepared(prepare_items(alloc, &collection, false, tree))
}

/// A scene goes.
pub fn deletion(alloc: Global, id: &str) -> anyhow::Result<Load>
    ensures { IfOk result IsWellFormed }
{
    let collection = Text::from_str(alloc, "s2")?;
    let id = Text::from_str(alloc, id)?;
    Ok(Load::Delete { collection, id })
}
