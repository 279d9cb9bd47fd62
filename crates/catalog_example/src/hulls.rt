//! Hulls of tickets that are installed, now and later.
use crate::loads;
use crate::teller::Teller;
use crate::telling::{begin, delete, insert, month};

/// A catalogue with one item, and the hull of the ticket of its part.
fn with_a_hull(rt: &HostRuntime) -> anyhow::Result<Teller> {
    let mut teller = begin(rt, "month")?;
    insert(rt, &mut teller, "a", "2024-01-10T00:00:00Z", 1)?;
    let name = month(rt.alloc(), 24_288)?;
    teller.look(rt, &name)?;
    teller.tighten(rt.alloc(), &name)?;
    Ok(teller)
}

/// A hull joined with what came after it, and one after which nothing came.
pub fn what_came_after(rt: &HostRuntime) -> anyhow::Result<()> {
    println!(rt; "A hull and what came after it")?;
    let mut teller = with_a_hull(rt)?;
    insert(rt, &mut teller, "b", "2024-01-20T00:00:00Z", 50)?;
    teller.install(rt)?;
    teller.install(rt)?;
    teller.tell_all(rt)?;
    delete(rt, &mut teller, "b")?;
    let name = month(rt.alloc(), 24_288)?;
    teller.look(rt, &name)?;
    teller.tighten(rt.alloc(), &name)?;
    teller.install(rt)
}

/// Inserts so many scenes by one load each, and prints the last revision alone.
fn insert_many(rt: &HostRuntime, teller: &mut Teller, count: u32) -> anyhow::Result<()> {
    let alloc = rt.alloc();
    let mut revision = 0;
    for n in 1..=count {
        let id = format!(in alloc; "b{n}")?;
        let scene = loads::scene(alloc, id.as_str(), "2024-01-20T00:00:00Z", 50)?;
        let load = loads::items(alloc, false, scene.as_str())?;
        match teller.publish(alloc, load) {
            Ok(published) => revision = published.revision,
            Err(_) => anyhow::bail!("a load is refused"),
        }
    }
    println!(rt; "  insert b1 to b{count}, one a load: revision {revision}")?;
    Ok(())
}

/// A hull with so many loads after it.
pub fn with_loads_after(rt: &HostRuntime, count: u32) -> anyhow::Result<()> {
    println!(rt; "A hull and {count} loads after it")?;
    let mut teller = with_a_hull(rt)?;
    insert_many(rt, &mut teller, count)?;
    teller.install(rt)
}

/// A hull of a part that went and was made again. The part has one addition then: 63 more leave the revision from which on they
/// are kept, and the next one doesn't.
pub fn of_an_earlier_part(rt: &HostRuntime) -> anyhow::Result<()> {
    println!(rt; "A hull of a part that went")?;
    let mut teller = with_a_hull(rt)?;
    delete(rt, &mut teller, "a")?;
    teller.look(rt, &month(rt.alloc(), 24_288)?)?;
    teller.install(rt)?;
    insert(rt, &mut teller, "b", "2024-01-20T00:00:00Z", 50)?;
    teller.install(rt)?;
    insert_many(rt, &mut teller, 63)?;
    teller.install(rt)?;
    insert(rt, &mut teller, "c", "2024-01-25T00:00:00Z", 2)?;
    teller.install(rt)
}
