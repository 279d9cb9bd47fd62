//! Loads that are taken.
use crate::loads;
use crate::teller::Teller;
use crate::telling::{begin, delete, insert, month, upsert};

/// An upsert moves an item from March to April: both parts have its revision as stamp, and March keeps its bounds.
pub fn between_months(rt: &HostRuntime) -> anyhow::Result<()> {
    println!(rt; "A move between months")?;
    let mut teller = begin(rt, "month")?;
    insert(rt, &mut teller, "a", "2024-03-05T00:00:00Z", 1)?;
    insert(rt, &mut teller, "k", "2024-03-06T00:00:00Z", 1)?;
    upsert(rt, &mut teller, "a", "2024-04-02T00:00:00Z", 1)?;
    teller.look(rt, &month(rt.alloc(), 24_290)?)?;
    teller.look(rt, &month(rt.alloc(), 24_291)?)?;
    teller.tell_all(rt)
}

/// An item is replaced by one of another day and place.
fn replace(rt: &HostRuntime, teller: &mut Teller) -> anyhow::Result<()> {
    let scene = loads::scene(rt.alloc(), "a", "2024-01-20T00:00:00Z", 50)?;
    let load = loads::replacement(rt.alloc(), "a", scene.as_str())?;
    teller.tell(rt, "replace a 2024-01-20T00:00:00Z (50,50)", load)
}

/// A patch moves an item to another month.
fn patch(rt: &HostRuntime, teller: &mut Teller) -> anyhow::Result<()> {
    let text = "{\"properties\":{\"datetime\":\"2024-02-10T00:00:00Z\"}}";
    let load = loads::patch(rt.alloc(), "a", text)?;
    teller.tell(rt, "patch a 2024-02-10T00:00:00Z", load)
}

/// Every kind of load once.
pub fn of_every_kind(rt: &HostRuntime) -> anyhow::Result<()> {
    println!(rt; "Every kind of load")?;
    let mut teller = begin(rt, "month")?;
    insert(rt, &mut teller, "a", "2024-01-10T00:00:00Z", 1)?;
    replace(rt, &mut teller)?;
    patch(rt, &mut teller)?;
    upsert(rt, &mut teller, "b", "2024-02-20T00:00:00Z", 2)?;
    delete(rt, &mut teller, "a")?;
    teller.tell_all(rt)?;
    let load = loads::dropped(rt.alloc())?;
    teller.tell(rt, "drop s2", load)?;
    teller.look(rt, &month(rt.alloc(), 24_289)?)?;
    teller.tell_all(rt)
}
