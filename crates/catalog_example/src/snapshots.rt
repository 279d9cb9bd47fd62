//! Snapshots, which stay as they are.
use crate::teller::{Teller, tell_snapshot};
use crate::telling::{begin, delete, insert, month};
use sc_catalog::{Snapshot, Text};

/// Prints whether a snapshot has an item.
fn tell_find(rt: &HostRuntime, snapshot: &Snapshot, id: &str) -> anyhow::Result<()> {
    let collection = Text::from_str(rt.alloc(), "s2")?;
    let found = snapshot.find(&collection, &Text::from_str(rt.alloc(), id)?);
    let answer = if found.is_some() {
        "there"
    } else {
        "not there"
    };
    println!(rt; "    item {id}: {answer}")?;
    Ok(())
}

/// A snapshot with both items.
fn tell_items(rt: &HostRuntime, snapshot: &Snapshot) -> anyhow::Result<()> {
    tell_snapshot(rt, snapshot)?;
    tell_find(rt, snapshot, "a")?;
    tell_find(rt, snapshot, "c")
}

/// A part whose bounds are wider than its items, since one went.
fn with_wide_bounds(rt: &HostRuntime) -> anyhow::Result<Teller> {
    let mut teller = begin(rt, "month")?;
    insert(rt, &mut teller, "a", "2024-01-10T00:00:00Z", 1)?;
    insert(rt, &mut teller, "b", "2024-01-20T00:00:00Z", 50)?;
    delete(rt, &mut teller, "b")?;
    Ok(teller)
}

/// A snapshot has its items and bounds also after a load and an install.
pub fn stay(rt: &HostRuntime) -> anyhow::Result<()> {
    println!(rt; "An older snapshot")?;
    let mut teller = with_wide_bounds(rt)?;
    let older = teller.snapshot(rt.alloc())?;
    teller.tighten(rt.alloc(), &month(rt.alloc(), 24_288)?)?;
    insert(rt, &mut teller, "c", "2024-01-25T00:00:00Z", 2)?;
    teller.install(rt)?;
    tell_items(rt, &older)?;
    tell_items(rt, &teller.snapshot(rt.alloc())?)
}
