ghost use Rattle.std.specs.Prelude.{◌≡◌, ◌++◌, ◌∷◌, [], List, Option, length, IfOk, OnOk, IfSome};
ghost use Rattle.sc_geom.specs.Point.{IsInWorld};
ghost use Rattle.sc_geom.specs.Building.{IsPath, settled};
ghost use Rattle.sc_geom.specs.Sketch.{is_open, differ};
ghost use Rattle.sc_geom.specs.declared.point.Pt.{Pt as PtRecord};

use crate::point::Pt;
use std::alloc::{AllocError, Global};

/// The positions of a list, in order. A position outside the world stands as the origin, and is known to be one.
#[derive(Drop)]
pub struct Path {
    pub(crate) points: Vec<Pt>,
    pub(crate) first: Option<Pt>,
    pub(crate) last: Option<Pt>,
    pub(crate) outside: bool,
}

fn settled(place: Option<Pt>) -> Pt
    ensures value { result ≡ settled place }
    ensures in_world { IfSome place IsInWorld → IsInWorld result }
{
    match place {
        Some(point) => point,
        None => Pt { x: 0, y: 0 },
    }
}

impl Path {
    /// No positions, with room for so many.
    pub fn new(alloc: Global, room: usize) -> Result<Path, AllocError>
        ensures { IfOk result (λ path. IsPath path []) }
    {
        Ok(Path {
            points: Vec::with_capacity(alloc, room)?,
            first: None,
            last: None,
            outside: false,
        })
    }

    /// Adds a position at the end, which is in range, or none where it is outside the world.
    pub fn push(&mut self, place: Option<Pt>) -> Result<(), AllocError>
        requires { IfSome place IsInWorld }
        ensures { (places : List (Option PtRecord)) → IsPath self.old places →
            OnOk result (IsPath self.new (places ++ place ∷ [])) }
    {
        if self.points.is_empty() {
            self.first = place;
        }
        self.last = place;
        self.outside |= place.is_none();
        self.points.push(settled(place))?;
        Ok(())
    }

    /// How many positions there are, those outside the world too.
    pub fn len(&self) -> usize
        ensures { (places : List (Option PtRecord)) → IsPath self.now places → result ≡ length places }
    {
        self.points.len()
    }

    /// Whether it is no ring: it has fewer than 4 positions, or its ends lie in the world, apart.
    pub fn is_open(&self) -> bool
        ensures { (places : List (Option PtRecord)) → IsPath self.now places → result ≡ is_open places }
    {
        if self.points.len() < 4 {
            return true;
        }
        differ(self.first, self.last)
    }
}

fn differ(a: Option<Pt>, b: Option<Pt>) -> bool
    ensures { result ≡ differ a b }
{
    match (a, b) {
        (Some(a), Some(b)) => !(a.x == b.x && a.y == b.y),
        _ => false,
    }
}
