//! Times searches over a snapshot of a catalogue.
//!
//! Standard input has a line for each collection, each load and each search, in this order: `+ DOCUMENT`, the document of a
//! collection; `= COLLECTION ITEMS`, an item or a feature collection for it; `? TIMES BODY`, how often a search is answered,
//! and its body. For each search it prints a line `ITEMS TIMES WALK FLAT AGREE`: the number of items, how often it was
//! answered, the nanoseconds that this took over the snapshot's parts, those that one page over a list of all items took, and
//! 1 where both pages have the same items.
#![tactic(auto)]

mod asking;
mod loading;
mod measuring;

use asking::searches_of;
use loading::load_all;
use measuring::measure_all;
use std::io::Read;
use std::marker::Brand;
use std::sync::ledger::Blank;

fn main(rt: HostRuntime) -> anyhow::Result<()> {
    let mut bytes = Vec::new(rt.alloc());
    rt.reader().read_to_end(&mut bytes)?;
    let catalogue = load_all(rt.alloc(), bytes.as_slice())?;
    let snapshot = catalogue.snapshot(rt.alloc())?;
    let searches = searches_of(rt.alloc(), bytes.as_slice())?;
    measure_all::<Brand>(&rt, &snapshot, searches.as_slice(), Blank::new(1))
}
