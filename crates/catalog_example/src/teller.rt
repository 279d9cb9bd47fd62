ghost use Rattle.std.specs.Prelude.{[], None};
ghost use Rattle.sc_load.specs.Load.{IsWellFormed};

use crate::words::{answer_text, bounds_text, installed_text, name_text};
use sc_catalog::{Bounds, Catalogue, Load, LoadFault, PartName, Published, Snapshot, Tight};
use std::alloc::{AllocError, Global};
use std::marker::Model;

/// A catalogue whose answers are printed, with the hull of the ticket that was tightened last. That hull can be installed at
/// any time, since it is of a ticket of this catalogue.
#[derive(Drop)]
pub struct Teller {
    catalogue: Catalogue,
    hull: Option<Tight>,
}

impl Model for Teller {
    ghost use Rattle.std.specs.Coded.{codes};
    ghost use Rattle.std.specs.Prelude.{IfSome};
    ghost use Rattle.sc_json.specs.contracts.tree.Json as e;
    ghost use Rattle.sc_catalog.specs.Holdings.{Holdings};
    ghost use Rattle.sc_catalog.specs.Entries.{IsTightOf};

    ghost Value = { Holdings };

    ghost coded = { Prim.hlevel (codes, e.the_row.coded) };

    ghost view = { λ t. t.catalogue };

    ghost invariant = { λ t. IfSome t.hull (IsTightOf t.catalogue.entries) };
}

/// The bounds of a part; none where it isn't there.
fn part_bounds_text(alloc: Global, bounds: Option<Bounds>) -> Result<String, AllocError> {
    match bounds {
        Some(bounds) => bounds_text(alloc, &bounds),
        None => String::from_str(alloc, "none"),
    }
}

/// Prints one part of a snapshot: its stamp, how many items it has, and its bounds.
fn tell_part(rt: &HostRuntime, snapshot: &Snapshot, n: u64) -> anyhow::Result<()> {
    if let Some((version, bounds)) = snapshot.part(n) {
        let name = name_text(rt.alloc(), version.name())?;
        let stamp = version.stamp();
        let count = version.len();
        let bounds = bounds_text(rt.alloc(), &bounds)?;
        println!(rt; "    {name}: stamp {stamp}, items {count}, bounds {bounds}")?;
    }
    Ok(())
}

/// Prints a snapshot: its revision, how many items it has, and its parts.
pub fn tell_snapshot(rt: &HostRuntime, snapshot: &Snapshot) -> anyhow::Result<()> {
    let revision = snapshot.revision();
    let items = snapshot.item_count();
    let parts = snapshot.part_count();
    println!(rt; "  snapshot: revision {revision}, items {items}, parts {parts}")?;
    for n in 0..parts {
        tell_part(rt, snapshot, n)?;
    }
    Ok(())
}

impl Teller {
    /// An empty catalogue.
    pub fn new(alloc: Global) -> Result<Teller, AllocError> {
        Ok(Teller {
            catalogue: Catalogue::new(alloc)?,
            hull: None,
        })
    }

    /// Publishes a load, and prints nothing.
    pub fn publish(&mut self, alloc: Global, load: Load) -> Result<Published, LoadFault>
        requires { IsWellFormed load }
    {
        self.catalogue.publish(alloc, 1, load)
    }

    /// Publishes a load, and prints what it is and the answer: the revision and the names of the parts, or the fault.
    pub fn tell(&mut self, rt: &HostRuntime, what: &str, load: Load) -> anyhow::Result<()>
        requires { IsWellFormed load }
    {
        let answer = self.publish(rt.alloc(), load);
        let text = answer_text(rt.alloc(), &answer)?;
        println!(rt; "  {what}: {text}")?;
        Ok(())
    }

    /// Looks at a part, and prints the ticket's stamp; none where there is no such part.
    pub fn look(&self, rt: &HostRuntime, name: &PartName) -> anyhow::Result<()> {
        let text = name_text(rt.alloc(), name)?;
        match self.catalogue.look(rt.alloc(), name)? {
            Some(ticket) => {
                let stamp = ticket.stamp();
                println!(rt; "  look at {text}: stamp {stamp}")?;
            }
            None => println!(rt; "  look at {text}: none")?,
        }
        Ok(())
    }

    /// Looks at a part and keeps the hull of the ticket.
    pub fn tighten(&mut self, alloc: Global, name: &PartName) -> anyhow::Result<()> {
        match self.catalogue.look(alloc, name)? {
            Some(ticket) => {
                self.hull = Some(ticket.tighten());
                Ok(())
            }
            None => anyhow::bail!("there is no such part"),
        }
    }

    /// Installs the hull that was kept, and prints the answer and the part's bounds after it.
    pub fn install(&mut self, rt: &HostRuntime) -> anyhow::Result<()> {
        let Some(hull) = &self.hull else {
            anyhow::bail!("no hull was kept")
        };
        let answer = self.catalogue.install(rt.alloc(), hull)?;
        let answer = installed_text(rt.alloc(), answer)?;
        let bounds = part_bounds_text(rt.alloc(), self.catalogue.bounds_of(hull.name()))?;
        println!(rt; "  install: {answer}, bounds {bounds}")?;
        Ok(())
    }

    /// The catalogue as it is.
    pub fn snapshot(&self, alloc: Global) -> Result<Snapshot, AllocError> {
        self.catalogue.snapshot(alloc)
    }

    /// Prints the catalogue as it is.
    pub fn tell_all(&self, rt: &HostRuntime) -> anyhow::Result<()> {
        tell_snapshot(rt, &self.snapshot(rt.alloc())?)
    }
}
