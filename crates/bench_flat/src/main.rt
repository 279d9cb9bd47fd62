//! Times the page of a search over items of memory.
//!
//! Standard input has a line for each item, and behind them one for each search: a letter that says what the plain loop looks
//! for, a blank and the search's body. For each search it prints a line `ITEMS LOOP TIME AGREE`: the number of items, the
//! nanoseconds that the plain loop with a heap took and those that the page took, and 1 where both have the same items.
#![tactic(auto)]

ghost use Rattle.std.specs.Prelude.{◌≡◌, IfOk};
ghost use Rattle.sc_item.specs.Names.{AreApart};
ghost use Rattle.sc_page.specs.Search.{shared};

mod asking;
mod plain;
mod ranks;

use asking::{place_of, query_of};
use plain::best_plainly;
use ranks::{Rank, Wanted};
use sc_item::{first_repeat, read_line};
use sc_page::{Item, Page, flat_page};
use std::alloc::{AllocError, Global};
use std::io::Read;
use std::sync::Arc;
use std::time::Instant;

/// The items of all lines that are items.
fn read_items(alloc: Global, bytes: &[u8]) -> Result<Vec<Item>, AllocError> {
    let mut items = Vec::new(alloc);
    for line in bytes.split(|byte| *byte == b'\n') {
        if let Some(item) = read_line(alloc, line)? {
            items.push(item)?;
        }
    }
    Ok(items)
}

/// The items, to be shared.
fn share(alloc: Global, items: Vec<Item>) -> Result<Vec<Arc<Item>>, AllocError>
    ensures { IfOk result (λ out. shared out.items ≡ items.items) }
{
    let mut out = Vec::with_capacity(alloc, items.len())?;
    for item in items {
        out.push(Arc::new(alloc, item)?)?;
    }
    Ok(out)
}

/// Whether the items of a page are those of the ranks.
fn agree(page: &Page, ranks: &[Rank<'_>]) -> bool {
    let items = page.items.as_slice();
    items.len() == ranks.len()
        && items
            .iter()
            .zip(ranks)
            .all(|(item, rank)| item.id().as_str() == rank.1)
}

/// Times a search, and prints its line.
fn measure(rt: &HostRuntime, items: &[Arc<Item>], wanted: Wanted, body: &[u8]) -> anyhow::Result<()>
    requires { AreApart (shared items.now) }
{
    let alloc = rt.alloc();
    let Some(query) = query_of(alloc, body) else {
        anyhow::bail!("a search isn't read");
    };
    let start = Instant::now(rt)?;
    let ranks = best_plainly(
        alloc,
        items,
        wanted,
        place_of(&query),
        query.limit() as usize,
    )?;
    let looping = start.elapsed(rt)?.as_nanos();
    let start = Instant::now(rt)?;
    let page = flat_page(alloc, items, &query)?;
    let time = start.elapsed(rt)?.as_nanos();
    let count = items.len();
    let agree = u8::from(agree(&page, ranks.as_slice()));
    println!(rt; "{count} {looping} {time} {agree}")?;
    Ok(())
}

/// Times the searches of all lines that are searches.
fn measure_all(rt: &HostRuntime, items: &[Arc<Item>], bytes: &[u8]) -> anyhow::Result<()>
    requires { AreApart (shared items.now) }
{
    for line in bytes.split(|byte| *byte == b'\n') {
        match line {
            [b'L', b' ', body @ ..] => measure(rt, items, Wanted::Latest, body)?,
            [b'B', b' ', body @ ..] => measure(rt, items, Wanted::BoxAndMonth, body)?,
            [b'C', b' ', body @ ..] => measure(rt, items, Wanted::LeastCover, body)?,
            _ => {}
        }
    }
    Ok(())
}

fn main(rt: HostRuntime) -> anyhow::Result<()> {
    let alloc = rt.alloc();
    let mut bytes = Vec::new(alloc);
    rt.reader().read_to_end(&mut bytes)?;
    let items = read_items(alloc, bytes.as_slice())?;
    if let Some(_) = first_repeat(alloc, items.as_slice())? {
        println!(rt; "two items have one name")?;
        return Ok(());
    }
    let items = share(alloc, items)?;
    measure_all(&rt, items.as_slice(), bytes.as_slice())
}
