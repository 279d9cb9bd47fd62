ghost use Rattle.std.specs.Prelude.{◌≡◌, ◌+◌, ◌++◌, ◌∷◌, [], List, Option, OnOk, IfOk};
ghost use Rattle.sc_geom.specs.Building.{IsArea, IsPath};
ghost use Rattle.sc_geom.specs.declared.point.Pt.{Pt as PtRecord};

use crate::path::Path;
use crate::point::Pt;
use sc_base::Seq;
use std::alloc::{AllocError, Global};

/// The rings of an area, and what is known of their positions.
#[derive(Drop)]
pub struct Area {
    pub(crate) rings: Vec<Seq<Pt>>,
    pub(crate) count: u64,
    pub(crate) outside: bool,
    pub(crate) has_open_ring: bool,
}

impl Area {
    /// No rings, with room for so many.
    pub fn new(alloc: Global, room: usize) -> Result<Area, AllocError>
        ensures { IfOk result (λ area. IsArea area []) }
    {
        Ok(Area {
            rings: Vec::with_capacity(alloc, room)?,
            count: 0,
            outside: false,
            has_open_ring: false,
        })
    }

    /// Adds a ring at the end.
    pub fn push(&mut self, ring: Path) -> Result<(), AllocError>
        ensures { (rings : List (List (Option PtRecord))) (places : List (Option PtRecord)) →
            IsArea self.old rings → IsPath ring places → OnOk result (IsArea self.new (rings ++ places ∷ [])) }
    {
        let count = added(self.count, ring.len() as u64)?;
        let is_open = ring.is_open();
        let Path {
            points,
            outside,
            ..
        } = ring;
        self.rings.push(Seq::of(points))?;
        self.count = count;
        self.outside |= outside;
        self.has_open_ring |= is_open;
        Ok(())
    }
}

/// A sum of two counts. So many positions as don't fit can't be in memory.
pub(crate) fn added(count: u64, more: u64) -> Result<u64, AllocError>
    ensures { IfOk result (λ sum. sum ≡ count + more) }
{
    match count.checked_add(more) {
        Some(sum) => Ok(sum),
        None => Err(AllocError),
    }
}
