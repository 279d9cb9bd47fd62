//! Loads that are refused.
use crate::loads;
use crate::teller::Teller;
use crate::telling::{begin, delete, insert, insert_all};

/// Ids that are there, and ids that stand twice; a refusal changes nothing.
pub fn of_ids(rt: &HostRuntime) -> anyhow::Result<()> {
    println!(rt; "Refused ids")?;
    let mut teller = begin(rt, "month")?;
    insert_all(rt, &mut teller, &["b"])?;
    insert_all(rt, &mut teller, &["x", "b", "y"])?;
    teller.tell_all(rt)?;
    insert_all(rt, &mut teller, &["x", "x"])?;
    teller.tell_all(rt)
}

/// The collection isn't there, and then it is.
fn of_collections(rt: &HostRuntime) -> anyhow::Result<Teller> {
    let mut teller = Teller::new(rt.alloc())?;
    insert(rt, &mut teller, "a", "2024-01-10T00:00:00Z", 1)?;
    let first = loads::collection(rt.alloc(), "s2", "month")?;
    teller.tell(rt, "add s2 by month", first)?;
    let second = loads::collection(rt.alloc(), "s2", "year")?;
    teller.tell(rt, "add s2 by year", second)?;
    Ok(teller)
}

/// No item has the id.
fn of_missing_items(rt: &HostRuntime, teller: &mut Teller) -> anyhow::Result<()> {
    let scene = loads::scene(rt.alloc(), "a", "2024-01-10T00:00:00Z", 1)?;
    let replacement = loads::replacement(rt.alloc(), "a", scene.as_str())?;
    teller.tell(rt, "replace a", replacement)?;
    let patch = loads::patch(rt.alloc(), "a", "{\"gsd\":10}")?;
    teller.tell(rt, "patch a", patch)?;
    delete(rt, teller, "a")
}

/// What the patch makes is no item, or has another id.
fn of_patches(rt: &HostRuntime, teller: &mut Teller) -> anyhow::Result<()> {
    insert(rt, teller, "a", "2024-01-10T00:00:00Z", 1)?;
    let patch = loads::patch(rt.alloc(), "a", "{\"properties\":null}")?;
    teller.tell(rt, "patch a without properties", patch)?;
    let patch = loads::patch(rt.alloc(), "a", "{\"id\":\"b\"}")?;
    teller.tell(rt, "patch a to be b", patch)
}

/// Each fault that needs no full catalogue.
pub fn of_every_kind(rt: &HostRuntime) -> anyhow::Result<()> {
    println!(rt; "Every kind of refusal")?;
    let mut teller = of_collections(rt)?;
    of_missing_items(rt, &mut teller)?;
    of_patches(rt, &mut teller)?;
    teller.tell_all(rt)
}
