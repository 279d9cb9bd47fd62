ghost use Rattle.std.specs.Prelude.{◌≡◌, ◌∷◌, [], IfOk};
ghost use Rattle.sc_geom.specs.Rectangle.{IsBox};
ghost use Rattle.sc_geom.specs.Rects.{ring_of, geometry_of};

use crate::boxes::GridBox;
use crate::geom::Geom;
use crate::point::Pt;
use crate::rects::Rects;
use sc_base::Seq;
use std::alloc::{AllocError, Global};

/// The area of a box, which has one ring.
fn area_of(alloc: Global, extent: &GridBox) -> Result<Seq<Seq<Pt>>, AllocError>
    ensures area { IfOk result (λ area. area ≡ ring_of extent.now ∷ []) }
    ensures kept { IsBox extent.now }
{
    let ring = Vec::from_array(alloc, extent.ring())?;
    let mut rings = Vec::with_capacity(alloc, 1)?;
    rings.push(Seq::of(ring))?;
    Ok(Seq::of(rings))
}

/// The geometry of boxes: one area for each, with one ring, from west-south over east-south, east-north and west-north
/// back to west-south.
pub fn geom_of_rects(alloc: Global, rects: &Rects) -> Result<Geom, AllocError>
    ensures { IfOk result (λ geom. geom ≡ geometry_of rects.now) }
{
    let mut areas = Vec::with_capacity(alloc, 2)?;
    areas.push(area_of(alloc, &rects.first)?)?;
    match &rects.second {
        None => {}
        Some(second) => areas.push(area_of(alloc, second)?)?,
    }
    Ok(Geom::of(Seq::new(alloc), Seq::new(alloc), Seq::of(areas)))
}
