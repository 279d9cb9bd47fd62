//! Times new versions of a part and look-ups in it, over items of one collection that come on standard input, one a line.
//! Those before an empty line make the part; those behind it come in one change.
//!
//! It prints `ITEMS COPY CHANGE FIND FOUND`: the number of items, the nanoseconds that copying all pointers of the part's
//! items, making the version with the changes, and looking up every item of the part by its id took, and how many were
//! found.
#![tactic(auto)]

ghost use Rattle.std.specs.Prelude.{◌≡◌, ◌++◌, All, IfOk, IsTrue};
ghost use Rattle.sc_item.specs.Names.{AreApart};
ghost use Rattle.sc_part.specs.Scan.{Fits, shared};

use sc_cut::Cut;
use sc_item::{first_repeat, read_line};
use sc_part::laws::apart_in_any_order;
use sc_part::{Item, PartName, PartVersion, Text, fits};
use std::alloc::{AllocError, Global};
use std::io::Read;
use std::sync::Arc;
use std::time::Instant;

/// The items of the lines, and how many of them stand before the first empty line.
fn read_items(alloc: Global, bytes: &[u8]) -> Result<(Vec<Item>, usize), AllocError> {
    let mut items = Vec::new(alloc);
    let mut count = None;
    for text in bytes.split(|byte| *byte == b'\n') {
        if text.is_empty() && count.is_none() {
            count = Some(items.len());
        }
        if let Some(item) = read_line(alloc, text)? {
            items.push(item)?;
        }
    }
    let all = items.len();
    Ok((items, count.unwrap_or(all)))
}

/// The items, to be shared.
fn share(alloc: Global, items: Vec<Item>) -> Result<Vec<Arc<Item>>, AllocError>
    ensures { IfOk result (λ out. shared out.items ≡ items.items) }
{
    let mut out = Vec::with_capacity(alloc, items.len())?;
    for item in items {
        out.push(Arc::new(alloc, item)?)?;
    }
    Ok(out)
}

/// Whether all items fit the name.
fn all_fit(name: &PartName, items: &[Arc<Item>]) -> bool
    ensures { IsTrue result → All (Fits name.now) (shared items.now) }
{
    for item in items {
        if !fits(name, item) {
            return false;
        }
    }
    true
}

fn copy_all(alloc: Global, items: &[Arc<Item>]) -> Result<Vec<Arc<Item>>, AllocError> {
    let mut copies = Vec::with_capacity(alloc, items.len())?;
    for item in items {
        copies.push(Arc::try_clone(item)?)?;
    }
    Ok(copies)
}

/// How many of the items are found by their ids.
fn find_all(version: &PartVersion, items: &[Arc<Item>]) -> usize {
    let mut found: usize = 0;
    for item in items {
        if version.find_id(item.id()).is_some() {
            found = found.wrapping_add(1);
        }
    }
    found
}

/// A version that followed another, and the nanoseconds that three steps took.
#[derive(Drop)]
struct Measured {
    /// The version with the changes.
    version: PartVersion,
    /// Copying the pointers of the version before.
    copy: u128,
    /// Making the version with the changes.
    change: u128,
    /// Looking up each item of the version before.
    find: u128,
    /// How many were found.
    found: usize,
}

/// Makes a version of the first items and one that has the others too.
fn measure(
    rt: &HostRuntime,
    alloc: Global,
    name: PartName,
    old: &[Arc<Item>],
    come: &[Arc<Item>],
) -> anyhow::Result<Measured>
    requires old { All (Fits name) (shared old.now) }
    requires come { All (Fits name) (shared come.now) }
    requires apart { AreApart (shared old.now ++ shared come.now) }
{
    apart_in_any_order();
    let base = PartVersion::empty(alloc, name).with_changes(alloc, 1, &[], old)?;
    let start = Instant::now(rt)?;
    let copies = copy_all(alloc, old)?;
    let copy = start.elapsed(rt)?.as_nanos();
    let start = Instant::now(rt)?;
    let version = base.with_changes(alloc, 2, &[], come)?;
    let change = start.elapsed(rt)?.as_nanos();
    let start = Instant::now(rt)?;
    let found = find_all(&version, copies.as_slice());
    let find = start.elapsed(rt)?.as_nanos();
    Ok(Measured {
        version,
        copy,
        change,
        find,
        found,
    })
}

/// The same for a list of items of which the first `count` make the version.
fn measure_at(
    rt: &HostRuntime,
    alloc: Global,
    name: PartName,
    all: &[Arc<Item>],
    count: usize,
) -> anyhow::Result<Measured>
    requires fits { All (Fits name) (shared all.now) }
    requires apart { AreApart (shared all.now) }
{
    let count = count.min(all.len());
    measure(rt, alloc, name, &all[..count], &all[count..])
}

/// The same for the items of lines; none where two have one name, or one isn't of the collection.
fn measure_lines(rt: &HostRuntime, bytes: &[u8]) -> anyhow::Result<Option<Measured>> {
    let alloc = rt.alloc();
    let (items, count) = read_items(alloc, bytes)?;
    if let Some(_) = first_repeat(alloc, items.as_slice())? {
        return Ok(None);
    }
    let all = share(alloc, items)?;
    let name = PartName {
        collection: Text::from_str(alloc, "s2")?,
        cut: Cut::Whole,
        key: 0,
    };
    if !all_fit(&name, all.as_slice()) {
        return Ok(None);
    }
    let measured = measure_at(rt, alloc, name, all.as_slice(), count)?;
    Ok(Some(measured))
}

fn main(rt: HostRuntime) -> anyhow::Result<()> {
    let mut bytes = Vec::new(rt.alloc());
    rt.reader().read_to_end(&mut bytes)?;
    // Nothing is measured of nothing.
    if bytes.is_empty() {
        return Ok(());
    }
    let Some(measured) = measure_lines(&rt, bytes.as_slice())? else {
        println!(rt; "no items of one part")?;
        return Ok(());
    };
    let items = measured.version.len();
    let Measured {
        version: _,
        copy,
        change,
        find,
        found,
    } = measured;
    println!(rt; "{items} {copy} {change} {find} {found}")?;
    Ok(())
}
