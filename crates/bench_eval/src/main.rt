//! Times which items of memory a search selects, over the items that come on standard input, one a line.
//!
//! It prints a line `ITEMS SELECTED LOOP TIME AGREE` for each of four searches: by box and month, by two comparisons, by
//! LIKE, and by LIKE of CASEI. That is the number of items and of those selected, the nanoseconds that a plain loop over
//! the same values in arrays took and those that the search took, and 1 where both found the same number.
#![tactic(auto)]

mod plain;

use plain::{Values, count_plainly};
use sc_base::Text;
use sc_eval::Prepared;
use sc_item::{Item, read_line};
use sc_query::{Pair, Query, of_get};
use std::alloc::{AllocError, Global};
use std::io;
use std::io::BufRead;
use std::time::Instant;

const SEARCHES: [[(&str, &str); 2]; 4] = [
    [
        ("bbox", "0,40,20,60"),
        ("datetime", "2020-06-01T00:00:00Z/2020-06-30T23:59:59Z"),
    ],
    [
        ("filter", "eo:cloud_cover < 20 AND platform = 'sentinel-2a'"),
        ("limit", "10"),
    ],
    [("filter", "platform LIKE '%nel-2%'"), ("limit", "10")],
    [
        ("filter", "CASEI(platform) LIKE CASEI('%NEL-2%')"),
        ("limit", "10"),
    ],
];

fn query_of(alloc: Global, parameters: &[(&str, &str)]) -> Result<Option<Query>, AllocError> {
    let mut pairs = Vec::new(alloc);
    for (name, value) in parameters {
        let name = Text::from_str(alloc, name)?;
        let value = Text::from_str(alloc, value)?;
        pairs.push(Pair { name, value })?;
    }
    Ok(of_get(alloc, pairs.as_slice()).ok())
}

fn count_selected(alloc: Global, query: &Query, items: &[Item]) -> Result<u64, AllocError> {
    let prepared = Prepared::of(alloc, query.select())?;
    let mut count: u64 = 0;
    for item in items {
        if prepared.selects(alloc, item)? {
            count = count.wrapping_add(1);
        }
    }
    Ok(count)
}

/// Times a search by its place among the searches.
fn measure(
    rt: &HostRuntime,
    place: usize,
    query: &Query,
    values: &Values,
    items: &[Item],
) -> anyhow::Result<()> {
    let start = Instant::now(rt)?;
    let plainly = count_plainly(place, values);
    let looping = start.elapsed(rt)?.as_nanos();
    let start = Instant::now(rt)?;
    let selected = count_selected(rt.alloc(), query, items)?;
    let time = start.elapsed(rt)?.as_nanos();
    let count = items.len();
    let agree = u8::from(plainly == selected);
    println!(rt; "{count} {selected} {looping} {time} {agree}")?;
    Ok(())
}

fn read_items(rt: &HostRuntime) -> anyhow::Result<Vec<Item>> {
    let alloc = rt.alloc();
    let mut items = Vec::new(alloc);
    for line in io::BufReader::new(alloc, rt.reader())?.lines(alloc) {
        let line = line?;
        if let Some(item) = read_line(alloc, line.as_str().as_bytes())? {
            items.push(item)?;
        }
    }
    Ok(items)
}

fn main(rt: HostRuntime) -> anyhow::Result<()> {
    let alloc = rt.alloc();
    let items = read_items(&rt)?;
    // Nothing is measured of nothing.
    if items.is_empty() {
        return Ok(());
    }
    let values = Values::of(alloc, items.as_slice())?;
    for (place, parameters) in SEARCHES.iter().enumerate() {
        if let Some(query) = query_of(alloc, parameters)? {
            measure(&rt, place, &query, &values, items.as_slice())?;
        }
    }
    Ok(())
}
