//! Times publishing and snapshots, over a collection's document and loads of its items that come on standard input, one a
//! line: the first line is the document, each further one an item or a feature collection.
//!
//! It prints `ITEMS LOADS PUBLISH LOOP PARTS SNAPSHOTS`: the number of items and of loads, the nanoseconds that publishing
//! all loads took and those that putting the same items into one sorted list a part took, the number of parts, and the
//! nanoseconds that 10,000 snapshots took.
#![tactic(auto)]

ghost use Rattle.std.specs.Prelude.{IfSome};
ghost use Rattle.sc_load.specs.Load.{IsWellFormed};

mod lists;

use crate::lists::SortedLists;
use sc_catalog::{Catalogue, Load, Snapshot, Text};
use sc_json::read_json;
use sc_load::{prepare_collection, prepare_items};
use std::alloc::{AllocError, Global};
use std::io::Read;
use std::time::Instant;

const SNAPSHOTS: u32 = 10_000;

/// The load of a line; none where it isn't one.
fn load_of(alloc: Global, collection: &Text, is_first: bool, line: &[u8]) -> Option<Load>
    ensures { IfSome result IsWellFormed }
{
    let Ok(tree) = read_json(alloc, line) else {
        return None;
    };
    if is_first {
        prepare_collection(alloc, tree).ok()
    } else {
        prepare_items(alloc, collection, false, tree).ok()
    }
}

/// Puts the load's items into their lists.
fn put_all(alloc: Global, lists: &mut SortedLists, load: &Load) -> Result<(), AllocError> {
    for item in load.items() {
        lists.put(alloc, item)?;
    }
    Ok(())
}

/// What was measured.
#[derive(Drop)]
struct Measured {
    catalogue: Catalogue,
    items: usize,
    loads: usize,
    publish: u128,
    puts: u128,
}

/// Publishes each line's load, and puts its items into lists beside that.
fn measure(rt: &HostRuntime, bytes: &[u8]) -> anyhow::Result<Measured> {
    let alloc = rt.alloc();
    let collection = Text::from_str(alloc, "s2")?;
    let mut measured = Measured {
        catalogue: Catalogue::new(alloc)?,
        items: 0,
        loads: 0,
        publish: 0,
        puts: 0,
    };
    let mut lists = SortedLists::new(alloc);
    for line in bytes.split(|byte| *byte == b'\n') {
        let Some(load) = load_of(alloc, &collection, measured.loads == 0, line) else {
            continue;
        };
        let start = Instant::now(rt)?;
        put_all(alloc, &mut lists, &load)?;
        measured.puts = measured.puts.saturating_add(start.elapsed(rt)?.as_nanos());
        measured.items = measured.items.saturating_add(load.items().len());
        measured.loads = measured.loads.saturating_add(1);
        let start = Instant::now(rt)?;
        if measured.catalogue.publish(alloc, 1, load).is_err() {
            anyhow::bail!("a load is refused");
        }
        measured.publish = measured
            .publish
            .saturating_add(start.elapsed(rt)?.as_nanos());
    }
    Ok(measured)
}

/// The nanoseconds that many snapshots take.
fn measure_snapshots(rt: &HostRuntime, catalogue: &Catalogue) -> anyhow::Result<u128> {
    let start = Instant::now(rt)?;
    for _ in 0..SNAPSHOTS {
        let _snapshot: Snapshot = catalogue.snapshot(rt.alloc())?;
    }
    Ok(start.elapsed(rt)?.as_nanos())
}

fn main(rt: HostRuntime) -> anyhow::Result<()> {
    let mut bytes = Vec::new(rt.alloc());
    rt.reader().read_to_end(&mut bytes)?;
    // Nothing is measured of nothing.
    if bytes.is_empty() {
        return Ok(());
    }
    let measured = measure(&rt, bytes.as_slice())?;
    let snapshots = measure_snapshots(&rt, &measured.catalogue)?;
    let parts = measured.catalogue.snapshot(rt.alloc())?.part_count();
    let Measured {
        catalogue: _,
        items,
        loads,
        publish,
        puts,
    } = measured;
    println!(rt; "{items} {loads} {publish} {puts} {parts} {snapshots}")?;
    Ok(())
}
