ghost use Rattle.std.specs.Prelude.{◌≡◌, ◌<◌};
ghost use Rattle.sc_item.specs.Names.{AreApart};
ghost use Rattle.sc_page.specs.Search.{shared};

use crate::asking::Asked;
use sc_item::Item;
use sc_outside::Steps;
use sc_page::{Page, Query, flat_page};
use sc_shelf::Snapshot;
use sc_walk::answer;
use std::sync::Arc;
use std::sync::ledger::{Blank, Ledger};
use std::time::Instant;

/// Whether two pages have items of the same ids.
fn agree(one: &Page, other: &Page) -> bool {
    let items = one.items.as_slice();
    let others = other.items.as_slice();
    items.len() == others.len()
        && items
            .iter()
            .zip(others)
            .all(|(item, other)| item.id() == other.id())
}

/// The nanoseconds that so many answers of a search take.
fn time_of_answers<L: Ledger>(
    rt: &HostRuntime,
    snapshot: &Snapshot,
    query: &Query,
    times: u32,
    steps: &mut Steps<L>,
) -> anyhow::Result<u128> {
    let start = Instant::now(rt)?;
    for _ in 0..times {
        answer(rt.alloc(), snapshot, query, steps)?;
    }
    Ok(start.elapsed(rt)?.as_nanos())
}

/// Times a search, and prints its line.
fn measure<L: Ledger>(
    rt: &HostRuntime,
    snapshot: &Snapshot,
    items: &[Arc<Item>],
    asked: &Asked,
    steps: &mut Steps<L>,
) -> anyhow::Result<()>
    requires { AreApart (shared items.now) }
{
    let times = asked.times;
    let page = answer(rt.alloc(), snapshot, &asked.query, steps)?;
    let walk = time_of_answers(rt, snapshot, &asked.query, times, steps)?;
    let start = Instant::now(rt)?;
    let whole = flat_page(rt.alloc(), items, &asked.query)?;
    let flat = start.elapsed(rt)?.as_nanos();
    let count = items.len();
    let agree = u8::from(agree(&page, &whole));
    println!(rt; "{count} {times} {walk} {flat} {agree}")?;
    Ok(())
}

/// Times each search, over a ledger that is handed in.
pub fn measure_all<L: Ledger>(
    rt: &HostRuntime,
    snapshot: &Snapshot,
    searches: &[Asked],
    blank: Blank,
) -> anyhow::Result<()>
    requires name { blank.name ≡ L.name }
    requires parts { blank.parts ≡ L.parts }
    requires some { 0 < blank.parts }
{
    let mut steps: Steps<L> = Steps::new(blank);
    // Nothing is measured of nothing.
    if snapshot.revision() == 0 {
        return Ok(());
    }
    let items = snapshot.items(rt.alloc(), &mut steps)?;
    for asked in searches {
        measure(rt, snapshot, items.as_slice(), asked, &mut steps)?;
    }
    Ok(())
}
