//! Whether the segments of two geometries touch.
ghost use Rattle.std.specs.Prelude.{◌≡◌, ◌↔◌, IsTrue, All, Any};
ghost use Rattle.sc_geom.specs.Point.{IsInWorld};
ghost use Rattle.sc_geom.specs.Rectangle.{Holds};
ghost use Rattle.sc_geom.specs.Shapes.{positions_of};
ghost use Rattle.sc_cross.specs.Segment.{IsSegmentInWorld, segments_from, segments_of, IsOn, Touches};
ghost use Rattle.sc_cross.specs.Meets.{segments_in, SomePair};
ghost use Rattle.sc_cross.specs.Parts.{TouchesPath, PathTouches, IsOnOneOf};

use crate::segment::{Segment, reaches_box, touches};
use sc_base::Seq;
use sc_geom::{Geom, GridBox, Pt};

/// Whether the segment touches one along the positions.
fn touches_along(segment: Segment, first: Pt, rest: &[Pt]) -> bool
    requires segment { IsSegmentInWorld segment }
    requires first { IsInWorld first }
    requires rest { All IsInWorld rest.now }
    ensures { IsTrue result ↔ Any (Touches segment) (segments_from first rest.now) }
{
    let mut from = first;
    for to in rest {
        if touches(segment, Segment { from, to: *to }) {
            return true;
        }
        from = *to;
    }
    false
}

/// Whether the segment touches one of the path.
#[tactic(auto, unfolding(crate::specs::Parts::TouchesPath))]
pub fn touches_path(segment: Segment, path: &[Pt]) -> bool
    requires segment { IsSegmentInWorld segment }
    requires path { All IsInWorld path.now }
    ensures { IsTrue result ↔ TouchesPath segment path.now }
{
    match path.split_first() {
        None => false,
        Some((first, rest)) => touches_along(segment, *first, rest),
    }
}

/// Whether the segment touches one of the paths.
fn touches_paths(segment: Segment, paths: &[Seq<Pt>]) -> bool
    requires segment { IsSegmentInWorld segment }
    requires paths { All (All IsInWorld) paths.now }
    ensures { IsTrue result ↔ Any (TouchesPath segment) paths.now }
{
    paths
        .iter()
        .any(|path| touches_path(segment, path.as_slice()))
}

/// Whether the segment touches one of the rings of areas.
fn touches_areas(segment: Segment, areas: &[Seq<Seq<Pt>>]) -> bool
    requires segment { IsSegmentInWorld segment }
    requires areas { All (All (All IsInWorld)) areas.now }
    ensures { IsTrue result ↔ Any (Any (TouchesPath segment)) areas.now }
{
    areas
        .iter()
        .any(|rings| touches_paths(segment, rings.as_slice()))
}

/// Whether the segment touches one of the geometry.
fn touches_geometry(segment: Segment, other: &Geom) -> bool
    requires { IsSegmentInWorld segment }
    ensures { IsTrue result ↔ Any (Touches segment) (segments_in other.now) }
{
    if touches_paths(segment, other.lines()) {
        return true;
    }
    touches_areas(segment, other.areas())
}

/// Whether the segment touches one of the geometry, whose positions the box has.
fn touches_one_of(segment: Segment, other: &Geom, extent: &GridBox) -> bool
    requires segment { IsSegmentInWorld segment }
    requires extent { All (Holds extent.now) (positions_of other.now) }
    ensures { IsTrue result ↔ Any (Touches segment) (segments_in other.now) }
{
    reaches_box(segment, extent) && touches_geometry(segment, other)
}

/// Whether one of the segments along the positions touches one of the geometry.
fn one_touches_along(first: Pt, rest: &[Pt], other: &Geom, extent: &GridBox) -> bool
    requires first { IsInWorld first }
    requires rest { All IsInWorld rest.now }
    requires extent { All (Holds extent.now) (positions_of other.now) }
    ensures { IsTrue result ↔ SomePair Touches (segments_from first rest.now) (segments_in other.now) }
{
    let mut from = first;
    for to in rest {
        if touches_one_of(Segment { from, to: *to }, other, extent) {
            return true;
        }
        from = *to;
    }
    false
}

/// Whether one of the path's segments touches one of the geometry.
#[tactic(auto, unfolding(crate::specs::Parts::PathTouches))]
pub fn path_touches(path: &[Pt], other: &Geom, extent: &GridBox) -> bool
    requires path { All IsInWorld path.now }
    requires extent { All (Holds extent.now) (positions_of other.now) }
    ensures { IsTrue result ↔ PathTouches other.now path.now }
{
    match path.split_first() {
        None => false,
        Some((first, rest)) => one_touches_along(*first, rest, other, extent),
    }
}

/// Whether one of the paths' segments touches one of the geometry.
fn paths_touch(paths: &[Seq<Pt>], other: &Geom, extent: &GridBox) -> bool
    requires paths { All (All IsInWorld) paths.now }
    requires extent { All (Holds extent.now) (positions_of other.now) }
    ensures { IsTrue result ↔ Any (PathTouches other.now) paths.now }
{
    paths
        .iter()
        .any(|path| path_touches(path.as_slice(), other, extent))
}

/// Whether an edge of the areas touches a segment of the geometry.
fn areas_touch(areas: &[Seq<Seq<Pt>>], other: &Geom, extent: &GridBox) -> bool
    requires areas { All (All (All IsInWorld)) areas.now }
    requires extent { All (Holds extent.now) (positions_of other.now) }
    ensures { IsTrue result ↔ Any (Any (PathTouches other.now)) areas.now }
{
    areas
        .iter()
        .any(|rings| paths_touch(rings.as_slice(), other, extent))
}

/// Whether two segments touch, one of each geometry; the box has the second's positions.
pub fn segments_touch(a: &Geom, b: &Geom, extent: &GridBox) -> bool
    requires { All (Holds extent.now) (positions_of b.now) }
    ensures { IsTrue result ↔ SomePair Touches (segments_in a.now) (segments_in b.now) }
{
    if paths_touch(a.lines(), b, extent) {
        return true;
    }
    areas_touch(a.areas(), b, extent)
}

/// Whether the position is on a segment of the geometry, whose positions the box has.
fn is_on_one_of(at: Pt, other: &Geom, extent: &GridBox) -> bool
    requires at { IsInWorld at }
    requires extent { All (Holds extent.now) (positions_of other.now) }
    ensures { IsTrue result ↔ IsOnOneOf other.now at }
{
    touches_one_of(Segment { from: at, to: at }, other, extent)
}

/// Whether one of the points is on a segment of the geometry, whose positions the box has.
fn any_is_on(points: &[Pt], other: &Geom, extent: &GridBox) -> bool
    requires points { All IsInWorld points.now }
    requires extent { All (Holds extent.now) (positions_of other.now) }
    ensures { IsTrue result ↔ Any (IsOnOneOf other.now) points.now }
{
    points.iter().any(|at| is_on_one_of(*at, other, extent))
}

/// Whether a point of the first geometry is on a segment of the second, whose positions the box has.
pub fn points_touch(a: &Geom, b: &Geom, extent: &GridBox) -> bool
    requires { All (Holds extent.now) (positions_of b.now) }
    ensures { IsTrue result ↔ SomePair IsOn a.now.points (segments_in b.now) }
{
    any_is_on(a.points(), b, extent)
}
