ghost use Rattle.std.specs.Prelude.{◌≡◌, ◌≤◌, ◌++◌, ◌∷◌, [], List, Option, OnOk, IfSome, length};
ghost use Rattle.sc_geom.specs.Shapes.{Shapes, nothing, beside};
ghost use Rattle.sc_geom.specs.Sketch.{Sketch, has_open_ring};
ghost use Rattle.sc_geom.specs.Answers.{count_of};
ghost use Rattle.sc_geom.specs.Point.{IsInWorld};
ghost use Rattle.sc_geom.specs.Drawn.{points_only, lines_only, areas_only};
ghost use Rattle.sc_geom.specs.Building.{IsDraft, IsArea, IsPath, Finishes};
ghost use Rattle.sc_geom.specs.declared.point.Pt.{Pt as PtRecord};

use crate::area::{Area, added};
use crate::fault::GeomFault;
use crate::geom::Geom;
use crate::path::Path;
use crate::point::Pt;
use sc_base::Seq;
use std::alloc::{AllocError, Global};

/// The shapes that are read so far, and what is known of their positions.
#[derive(Drop)]
pub struct Draft {
    pub(crate) points: Vec<Pt>,
    pub(crate) lines: Vec<Seq<Pt>>,
    pub(crate) areas: Vec<Seq<Seq<Pt>>>,
    pub(crate) count: u64,
    pub(crate) outside: bool,
    pub(crate) has_open_ring: bool,
}

impl Draft {
    /// Nothing read so far.
    pub fn new(alloc: Global) -> Draft
        ensures { IsDraft result nothing }
    {
        Draft {
            points: Vec::new(alloc),
            lines: Vec::new(alloc),
            areas: Vec::new(alloc),
            count: 0,
            outside: false,
            has_open_ring: false,
        }
    }

    /// How many positions were added, those that close rings too.
    pub fn count(&self) -> u64
        ensures { (s : Sketch) → IsDraft self.now s → result ≡ count_of s }
    {
        self.count
    }

    /// Whether a ring that was added is open.
    pub fn has_open_ring(&self) -> bool
        ensures { (s : Sketch) → IsDraft self.now s → result ≡ has_open_ring s }
    {
        self.has_open_ring
    }

    /// Takes room for so many lines more.
    pub fn reserve_lines(&mut self, more: usize) -> Result<(), AllocError>
        ensures { (s : Sketch) → IsDraft self.old s → OnOk result (IsDraft self.new s) }
    {
        self.lines.reserve(more)
    }

    /// Takes room for so many areas more.
    pub fn reserve_areas(&mut self, more: usize) -> Result<(), AllocError>
        ensures { (s : Sketch) → IsDraft self.old s → OnOk result (IsDraft self.new s) }
    {
        self.areas.reserve(more)
    }

    /// Adds points at the end.
    pub fn add_points(&mut self, path: Path) -> Result<(), AllocError>
        ensures { (s : Sketch) (places : List (Option PtRecord)) →
            IsDraft self.old s → IsPath path places → OnOk result (IsDraft self.new (beside s (points_only places))) }
    {
        let count = added(self.count, path.len() as u64)?;
        let Path {
            points,
            outside,
            ..
        } = path;
        self.points.extend_from_slice(points.as_slice())?;
        self.count = count;
        self.outside |= outside;
        Ok(())
    }

    /// Adds a line at the end.
    pub fn add_line(&mut self, path: Path) -> Result<(), AllocError>
        ensures { (s : Sketch) (places : List (Option PtRecord)) →
            IsDraft self.old s → IsPath path places → 2 ≤ length places →
            OnOk result (IsDraft self.new (beside s (lines_only (places ∷ [])))) }
    {
        let count = added(self.count, path.len() as u64)?;
        let Path {
            points,
            outside,
            ..
        } = path;
        self.lines.push(Seq::of(points))?;
        self.count = count;
        self.outside |= outside;
        Ok(())
    }

    /// Adds an area at the end.
    pub fn add_area(&mut self, area: Area) -> Result<(), AllocError>
        ensures { (s : Sketch) (rings : List (List (Option PtRecord))) →
            IsDraft self.old s → IsArea area rings → 1 ≤ length rings →
            OnOk result (IsDraft self.new (beside s (areas_only (rings ∷ [])))) }
    {
        let Area {
            rings,
            count,
            outside,
            has_open_ring,
        } = area;
        let count = added(self.count, count)?;
        self.areas.push(Seq::of(rings))?;
        self.count = count;
        self.outside |= outside;
        self.has_open_ring |= has_open_ring;
        Ok(())
    }

    /// The geometry of all that was added, or the first fault.
    pub fn finish(self, most: u32) -> Result<Geom, GeomFault>
        requires { (s : Sketch) × IsDraft self s }
        ensures { (s : Sketch) → IsDraft self s → Finishes result s most }
    {
        let Draft {
            points,
            lines,
            areas,
            count,
            outside,
            has_open_ring,
        } = self;
        if count == 0 {
            return Err(GeomFault::BadShape);
        }
        if has_open_ring {
            return Err(GeomFault::OpenRing);
        }
        if outside {
            return Err(GeomFault::OutOfWorld);
        }
        if count > u64::from(most) {
            return Err(GeomFault::TooManyPositions { count });
        }
        Ok(Geom::of(Seq::of(points), Seq::of(lines), Seq::of(areas)))
    }
}
