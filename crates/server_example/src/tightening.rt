//! A worker that tightens the bounds of a part.
ghost use Rattle.sc_load.specs.Load.{IsWellFormed};

use crate::loads::{collection, deletion, insertion};
use crate::seats::{next_notice_pass, next_pass, open_desk, open_notices};
use crate::words::{bounds_text, month, name_text};
use sc_desk::{DeskPass, Load, publish, take_snapshot};
use sc_notice::{Notice, tell};
use sc_outside::OpenGate;
use sc_tighten::work;
use std::alloc::Global;
use std::rt::Runtime;
use std::sync::Wait;

/// Publishes a load, and prints the revision.
fn print_publish<'d, R: Runtime<A = Global> + Wait>(
    rt: &R,
    pass: &mut DeskPass<'d>,
    what: &str,
    load: Load,
) -> anyhow::Result<()>
    requires { IsWellFormed load }
{
    match publish(rt, rt.alloc(), pass, load) {
        Ok(published) => {
            let revision = published.revision;
            println!(rt; "  {what}: revision {revision}")?;
            Ok(())
        }
        Err(_) => anyhow::bail!("the load is refused"),
    }
}

/// Prints the bounds of all parts, by a new snapshot.
fn print_bounds<'d, R: Runtime<A = Global> + Wait>(
    rt: &R,
    pass: &mut DeskPass<'d>,
) -> anyhow::Result<()> {
    let snapshot = take_snapshot(rt, rt.alloc(), pass)?;
    for n in 0..snapshot.part_count() {
        if let Some((version, bounds)) = snapshot.part(n) {
            let name = name_text(rt.alloc(), version.name())?;
            let bounds = bounds_text(rt.alloc(), &bounds)?;
            println!(rt; "  bounds of {name}: {bounds}")?;
        }
    }
    Ok(())
}

/// The collection, two scenes of one month, and one of these goes: the bounds are wider then than the scene that is left.
fn load_all<'d, R: Runtime<A = Global> + Wait>(
    rt: &R,
    pass: &mut DeskPass<'d>,
) -> anyhow::Result<()> {
    let alloc = rt.alloc();
    print_publish(rt, pass, "add s2", collection(alloc)?)?;
    let load = insertion(alloc, "a", "2024-01-10T00:00:00Z", 1)?;
    print_publish(rt, pass, "insert a 2024-01-10T00:00:00Z (1,1)", load)?;
    let load = insertion(alloc, "b", "2024-01-20T00:00:00Z", 50)?;
    print_publish(rt, pass, "insert b 2024-01-20T00:00:00Z (50,50)", load)?;
    print_publish(rt, pass, "delete b", deletion(alloc, "b")?)?;
    print_bounds(rt, pass)
}

/// A worker hears of a part in one turn, and installs the hull of the scene that is left.
pub fn of_a_part<R: Runtime<A = Global> + Wait>(rt: &R) -> anyhow::Result<()> {
    println!(rt; "A worker hears of a part")?;
    let alloc = rt.alloc();
    let (desk, mut cards) = open_desk(alloc, 2)?;
    let (notices, mut notice_cards) = open_notices(alloc, 1, 1)?;
    let mut loading = next_pass(&desk, &mut cards)?;
    let mut working = next_pass(&desk, &mut cards)?;
    let mut hearing = next_notice_pass(&notices, &mut notice_cards)?;
    load_all(rt, &mut loading)?;
    if tell(rt, &mut hearing, Notice::Part(month(alloc, 24_288)?)).is_some() {
        anyhow::bail!("the notice is handed back");
    }
    let done = work(rt, alloc, &mut working, &mut hearing, 1, &mut OpenGate);
    println!(rt; "  work with 1 turn: {done:?}")?;
    print_bounds(rt, &mut loading)
}
