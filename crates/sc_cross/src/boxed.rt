//! Whether a geometry meets what a bounding box covers. The ring of each box stands on the stack.
ghost use Rattle.std.specs.Prelude.{◌≡◌, ◌↔◌, IsTrue, All, Any};
ghost use Rattle.sc_geom.specs.Point.{IsInWorld};
ghost use Rattle.sc_geom.specs.Rectangle.{Holds};
ghost use Rattle.sc_geom.specs.Rects.{ring_of, geometry_of};
ghost use Rattle.sc_geom.specs.Shapes.{positions_of};
ghost use Rattle.sc_cross.specs.Area.{IsInside};
ghost use Rattle.sc_cross.specs.Segment.{segments_of, IsOn};
ghost use Rattle.sc_cross.specs.Meets.{Meets, SomePair};
ghost use Rattle.sc_cross.specs.Meeting.{do_meet};
ghost use Rattle.sc_cross.specs.Parts.{IsInRing, IsOnRing, area_of};

use crate::area::is_in_ring;
use crate::entering::path_enters;
use crate::segment::Segment;
use crate::touching::{path_touches, touches_path};
use sc_base::Seq;
use sc_geom::{Geom, GridBox, Pt, Rects};

/// Whether one of the positions lies in the ring's area.
fn path_enters_ring(path: &[Pt], ring: &[Pt]) -> bool
    requires path { All IsInWorld path.now }
    requires ring { All IsInWorld ring.now }
    ensures { IsTrue result ↔ Any (IsInRing ring.now) path.now }
{
    path.iter().any(|at| is_in_ring(*at, ring))
}

/// Whether a position of one of the paths lies in the ring's area.
fn paths_enter_ring(paths: &[Seq<Pt>], ring: &[Pt]) -> bool
    requires paths { All (All IsInWorld) paths.now }
    requires ring { All IsInWorld ring.now }
    ensures { IsTrue result ↔ Any (Any (IsInRing ring.now)) paths.now }
{
    paths
        .iter()
        .any(|path| path_enters_ring(path.as_slice(), ring))
}

/// Whether a position of the areas' rings lies in the ring's area.
fn areas_enter_ring(areas: &[Seq<Seq<Pt>>], ring: &[Pt]) -> bool
    requires areas { All (All (All IsInWorld)) areas.now }
    requires ring { All IsInWorld ring.now }
    ensures { IsTrue result ↔ Any (Any (Any (IsInRing ring.now))) areas.now }
{
    areas
        .iter()
        .any(|rings| paths_enter_ring(rings.as_slice(), ring))
}

/// Whether a position of the geometry lies in the ring's area.
fn enters_ring(geom: &Geom, ring: &[Pt]) -> bool
    requires { All IsInWorld ring.now }
    ensures { IsTrue result ↔ Any (IsInRing ring.now) (positions_of geom.now) }
{
    if path_enters_ring(geom.points(), ring) {
        return true;
    }
    if paths_enter_ring(geom.lines(), ring) {
        return true;
    }
    areas_enter_ring(geom.areas(), ring)
}

/// Whether a position of the ring lies in an area of the geometry, whose positions the box has.
fn ring_enters(ring: &[Pt], geom: &Geom, extent: &GridBox) -> bool
    requires ring { All IsInWorld ring.now }
    requires extent { All (Holds extent.now) (positions_of geom.now) }
    ensures { IsTrue result ↔ SomePair IsInside ring.now geom.now.areas }
{
    path_enters(ring, geom.areas(), extent)
}

/// Whether the position is on the ring.
fn is_on_ring(at: Pt, ring: &[Pt]) -> bool
    requires at { IsInWorld at }
    requires ring { All IsInWorld ring.now }
    ensures { IsTrue result ↔ IsOnRing ring.now at }
{
    touches_path(Segment { from: at, to: at }, ring)
}

/// Whether one of the points is on the ring.
fn any_is_on_ring(points: &[Pt], ring: &[Pt]) -> bool
    requires points { All IsInWorld points.now }
    requires ring { All IsInWorld ring.now }
    ensures { IsTrue result ↔ Any (IsOnRing ring.now) points.now }
{
    points.iter().any(|at| is_on_ring(*at, ring))
}

/// Whether a point of the geometry is on the ring.
fn points_touch_ring(geom: &Geom, ring: &[Pt]) -> bool
    requires { All IsInWorld ring.now }
    ensures { IsTrue result ↔ SomePair IsOn geom.now.points (segments_of ring.now) }
{
    any_is_on_ring(geom.points(), ring)
}

/// Whether the geometry, whose positions the box has, meets the ring's area.
fn meets_ring(geom: &Geom, extent: &GridBox, ring: &[Pt]) -> bool
    requires extent { All (Holds extent.now) (positions_of geom.now) }
    requires ring { All IsInWorld ring.now }
    ensures { IsTrue result ↔ Meets geom.now (area_of ring.now) }
{
    if enters_ring(geom, ring) {
        return true;
    }
    if ring_enters(ring, geom, extent) {
        return true;
    }
    if points_touch_ring(geom, ring) {
        return true;
    }
    path_touches(ring, geom, extent)
}

/// Whether the geometry, whose positions the first box has, meets the second.
fn meets_box(geom: &Geom, extent: &GridBox, area: &GridBox) -> bool
    requires { All (Holds extent.now) (positions_of geom.now) }
    ensures { IsTrue result ↔ Meets geom.now (area_of (ring_of area.now)) }
{
    let _points = geom.points();
    let ring = area.ring();
    extent.overlaps(area) && meets_ring(geom, extent, &ring)
}

/// Whether the geometry meets one of the boxes, as [`meets`](crate::meets) says it of the geometry that they are. The
/// caller knows a box that holds all positions of the geometry. It takes no memory.
pub fn meets_rects(geom: &Geom, extent: &GridBox, rects: &Rects) -> bool
    requires { All (Holds extent.now) (positions_of geom.now) }
    ensures meets { IsTrue result ↔ Meets geom.now (geometry_of rects.now) }
    ensures test { result ≡ do_meet geom.now (geometry_of rects.now) }
{
    if meets_box(geom, extent, &rects.first) {
        return true;
    }
    match &rects.second {
        None => false,
        Some(second) => meets_box(geom, extent, second),
    }
}
