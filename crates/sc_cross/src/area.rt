//! Whether positions lie in areas.
ghost use Rattle.std.specs.Prelude.{◌≡◌, ◌↔◌, IsTrue, not, All, if◌then◌else◌};
ghost use Rattle.sc_geom.specs.Point.{IsInWorld};
ghost use Rattle.sc_cross.specs.Segment.{IsSegmentInWorld, segments_from, segments_of};
ghost use Rattle.sc_cross.specs.Area.{rises_east, is_crossed, IsInside};
ghost use Rattle.sc_cross.specs.Parts.{turned_over, IsInRing};

use crate::segment::{Segment, side, turned};
use sc_base::Seq;
use sc_geom::Pt;

/// Whether the edge comes from the position's height or south of it, ends north of it, and lies strictly east of it.
fn rises_east(at: Pt, edge: Segment) -> bool
    requires at { IsInWorld at }
    requires edge { IsSegmentInWorld edge }
    ensures { result ≡ rises_east at edge }
{
    if at.y < edge.from.y {
        return false;
    }
    if edge.to.y <= at.y {
        return false;
    }
    side(edge, at) > 0
}

/// Whether exactly one end of the edge lies north of the position, and the edge strictly east of it at its height.
fn is_crossed(at: Pt, edge: Segment) -> bool
    requires at { IsInWorld at }
    requires edge { IsSegmentInWorld edge }
    ensures { result ≡ is_crossed at edge }
{
    rises_east(at, edge) || rises_east(at, turned(edge))
}

/// The answer, turned over where the edge is crossed.
fn turned_at(odd: bool, at: Pt, edge: Segment) -> bool
    requires at { IsInWorld at }
    requires edge { IsSegmentInWorld edge }
    ensures { result ≡ (if is_crossed at edge then not odd else odd) }
{
    odd != is_crossed(at, edge)
}

/// The answer, turned over for each edge that is crossed along the positions.
fn turned_along(before: bool, at: Pt, first: Pt, rest: &[Pt]) -> bool
    requires at { IsInWorld at }
    requires first { IsInWorld first }
    requires rest { All IsInWorld rest.now }
    ensures { result ≡ turned_over at before (segments_from first rest.now) }
{
    let mut odd = before;
    let mut from = first;
    for to in rest {
        odd = turned_at(odd, at, Segment { from, to: *to });
        from = *to;
    }
    odd
}

/// The same along a whole ring.
fn turned_over(before: bool, at: Pt, ring: &[Pt]) -> bool
    requires at { IsInWorld at }
    requires ring { All IsInWorld ring.now }
    ensures { result ≡ turned_over at before (segments_of ring.now) }
{
    match ring.split_first() {
        None => before,
        Some((first, rest)) => turned_along(before, at, *first, rest),
    }
}

/// Whether the position lies in the area of the rings.
pub fn is_inside(at: Pt, rings: &[Seq<Pt>]) -> bool
    requires at { IsInWorld at }
    requires rings { All (All IsInWorld) rings.now }
    ensures { IsTrue result ↔ IsInside at rings.now }
{
    let mut odd = false;
    for ring in rings {
        odd = turned_over(odd, at, ring.as_slice());
    }
    odd
}

/// Whether the position lies in the area of one ring.
pub fn is_in_ring(at: Pt, ring: &[Pt]) -> bool
    requires at { IsInWorld at }
    requires ring { All IsInWorld ring.now }
    ensures { IsTrue result ↔ IsInRing ring.now at }
{
    turned_over(false, at, ring)
}
