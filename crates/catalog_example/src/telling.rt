//! The steps that most stories have. They are of the collection `s2`.
use crate::loads;
use crate::teller::Teller;
use sc_catalog::{PartName, Text};
use sc_cut::Cut;
use std::alloc::{AllocError, Global};

/// A catalogue with the collection, cut as the word says.
pub fn begin(rt: &HostRuntime, cut: &str) -> anyhow::Result<Teller> {
    let mut teller = Teller::new(rt.alloc())?;
    let what = format!(in rt.alloc(); "add s2 by {cut}")?;
    let load = loads::collection(rt.alloc(), "s2", cut)?;
    teller.tell(rt, what.as_str(), load)?;
    Ok(teller)
}

/// The name of a month's part.
pub fn month(alloc: Global, key: i32) -> Result<PartName, AllocError> {
    Ok(PartName {
        collection: Text::from_str(alloc, "s2")?,
        cut: Cut::Month,
        key,
    })
}

/// A scene is inserted, or else upserted: at this time, at the point whose longitude and latitude are both so many degrees.
fn put(
    rt: &HostRuntime,
    teller: &mut Teller,
    upsert: bool,
    id: &str,
    datetime: &str,
    degrees: u32,
) -> anyhow::Result<()> {
    let word = if upsert { "upsert" } else { "insert" };
    let what = format!(in rt.alloc(); "{word} {id} {datetime} ({degrees},{degrees})")?;
    let scene = loads::scene(rt.alloc(), id, datetime, degrees)?;
    let load = loads::items(rt.alloc(), upsert, scene.as_str())?;
    teller.tell(rt, what.as_str(), load)
}

/// A scene is inserted.
pub fn insert(
    rt: &HostRuntime,
    teller: &mut Teller,
    id: &str,
    datetime: &str,
    degrees: u32,
) -> anyhow::Result<()> {
    put(rt, teller, false, id, datetime, degrees)
}

/// A scene is upserted.
pub fn upsert(
    rt: &HostRuntime,
    teller: &mut Teller,
    id: &str,
    datetime: &str,
    degrees: u32,
) -> anyhow::Result<()> {
    put(rt, teller, true, id, datetime, degrees)
}

/// A scene goes.
pub fn delete(rt: &HostRuntime, teller: &mut Teller, id: &str) -> anyhow::Result<()> {
    let what = format!(in rt.alloc(); "delete {id}")?;
    let load = loads::deletion(rt.alloc(), id)?;
    teller.tell(rt, what.as_str(), load)
}

/// Items are inserted: the scenes with these ids, all alike.
pub fn insert_all(rt: &HostRuntime, teller: &mut Teller, ids: &[&str]) -> anyhow::Result<()> {
    let alloc = rt.alloc();
    let mut what = String::from_str(alloc, "insert")?;
    let mut text = String::from_str(alloc, "{\"type\":\"FeatureCollection\",\"features\":[")?;
    for n in 0..ids.len() {
        let id = ids[n];
        if n > 0 {
            text.push_str(",")?;
        }
        text.push_str(loads::scene(alloc, id, "2024-01-10T00:00:00Z", 1)?.as_str())?;
        what.push_str(" ")?;
        what.push_str(id)?;
    }
    text.push_str("]}")?;
    let load = loads::items(alloc, false, text.as_str())?;
    teller.tell(rt, what.as_str(), load)
}
