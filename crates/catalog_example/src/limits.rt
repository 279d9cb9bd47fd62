//! Limits that a program reaches in a moment.
use crate::loads;
use crate::teller::Teller;
use sc_catalog::Text;
use sc_json::read_json;
use sc_load::{PrepareFault, prepare_items};

/// The most collections.
const COLLECTIONS: u32 = 1_024;

/// One collection above the limit.
pub fn collections(rt: &HostRuntime) -> anyhow::Result<()> {
    println!(rt; "Full of collections")?;
    let alloc = rt.alloc();
    let mut teller = Teller::new(alloc)?;
    for n in 1..=COLLECTIONS {
        let id = format!(in alloc; "c{n}")?;
        let load = loads::collection(alloc, id.as_str(), "whole")?;
        if teller.publish(alloc, load).is_err() {
            anyhow::bail!("a collection is refused");
        }
    }
    let load = loads::collection(alloc, "c1025", "whole")?;
    teller.tell(rt, "add c1025 by whole", load)?;
    teller.tell_all(rt)
}

/// One item above the limit of a load. No item of the load is read, so these are none.
pub fn items(rt: &HostRuntime) -> anyhow::Result<()> {
    println!(rt; "Too many items for a load")?;
    let alloc = rt.alloc();
    let mut text = String::from_str(alloc, "{\"type\":\"FeatureCollection\",\"features\":[1")?;
    for _ in 0..10_000 {
        text.push_str(",1")?;
    }
    text.push_str("]}")?;
    let Ok(tree) = read_json(alloc, text.as_bytes()) else {
        anyhow::bail!("no JSON")
    };
    match prepare_items(alloc, &Text::from_str(alloc, "s2")?, false, tree) {
        Err(PrepareFault::TooManyItems { count }) => {
            println!(rt; "  insert 10,001 items: TooManyItems {count}")?;
        }
        _ => anyhow::bail!("a load is prepared"),
    }
    Ok(())
}
