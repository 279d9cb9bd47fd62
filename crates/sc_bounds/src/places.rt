//! Sets of grid points: none, or all in a box.
ghost use Rattle.std.specs.Prelude.{◌≡◌, ◌↔◌, ◌≤ℤ◌, IsTrue, false, Some, None, if◌then◌else◌};
ghost use Rattle.sc_geom.specs.Point.{IsLatitude, IsLongitude};
ghost use Rattle.sc_geom.specs.Rectangle.{IsWithin, IsBox, Rectangle};
ghost use Rattle.sc_bounds.specs.Places.{IsPlace, box_join, box_meet, has_points, place_join, place_meet};
ghost use Rattle.sc_bounds.specs.Sets.{ArePointsOf};

use sc_geom::GridBox;

/// Whether a part of a line lies within another.
fn is_within(first: i64, last: i64, outer_first: i64, outer_last: i64) -> bool
    ensures { IsTrue result ↔ ((outer_first ≤ℤ first) × (last ≤ℤ outer_last)) }
{
    outer_first <= first && last <= outer_last
}

/// Whether no side of the first box lies outside the second.
fn is_box_within(inner: &GridBox, outer: &GridBox) -> bool
    ensures within { IsTrue result ↔ IsWithin inner.now outer.now }
    ensures kept { IsBox inner.now }
{
    let across = is_within(inner.west(), inner.east(), outer.west(), outer.east());
    let up = is_within(inner.south(), inner.north(), outer.south(), outer.north());
    across && up
}

/// Whether a box has no point, which is true of none.
fn has_no_point(only: &GridBox) -> bool
    ensures never { result ≡ false }
    ensures kept { IsBox only.now }
{
    only.east() < only.west()
}

/// Whether all points of a set are in another.
pub fn is_place_within(inner: &Option<GridBox>, outer: &Option<GridBox>) -> bool
    ensures { IsTrue result ↔ ArePointsOf inner.now outer.now }
{
    match (inner, outer) {
        (None, _) => true,
        (Some(inner), None) => has_no_point(inner),
        (Some(inner), Some(outer)) => is_box_within(inner, outer),
    }
}

/// The smallest box that has the points of both.
fn join_boxes(a: &GridBox, b: &GridBox) -> GridBox
    ensures join { result ≡ box_join a.now b.now }
    ensures left { IsBox a.now }
    ensures right { IsBox b.now }
{
    GridBox::new(
        a.west().min(b.west()),
        a.south().min(b.south()),
        a.east().max(b.east()),
        a.north().max(b.north()),
    )
}

/// A copy of a box, and that it keeps its condition.
fn same_box(only: &GridBox) -> GridBox
    ensures same { result ≡ only.now }
    ensures kept { IsBox only.now }
{
    GridBox::new(only.west(), only.south(), only.east(), only.north())
}

/// The smallest set that has the points of both, and that both keep their condition.
pub fn join_places(a: &Option<GridBox>, b: &Option<GridBox>) -> Option<GridBox>
    ensures join { result ≡ place_join a.now b.now }
    ensures left { IsPlace a.now }
    ensures right { IsPlace b.now }
{
    match (a, b) {
        (None, None) => None,
        (None, Some(only)) => Some(same_box(only)),
        (Some(only), None) => Some(same_box(only)),
        (Some(a), Some(b)) => Some(join_boxes(a, b)),
    }
}

/// The box between four sides; none where they aren't in order.
fn box_between(west: i64, south: i64, east: i64, north: i64) -> Option<GridBox>
    requires west_in { IsLongitude west }
    requires south_in { IsLatitude south }
    requires east_in { IsLongitude east }
    requires north_in { IsLatitude north }
    ensures { (box : Rectangle) → box ≡ record { west = west; south = south; east = east; north = north } → result ≡ (if has_points box then Some box else None) }
{
    if east < west {
        return None;
    }
    if north < south {
        return None;
    }
    Some(GridBox::new(west, south, east, north))
}

/// The points that both boxes have.
fn meet_boxes(a: &GridBox, b: &GridBox) -> Option<GridBox>
    ensures { result ≡ (if has_points (box_meet a.now b.now) then Some (box_meet a.now b.now) else None) }
{
    box_between(
        a.west().max(b.west()),
        a.south().max(b.south()),
        a.east().min(b.east()),
        a.north().min(b.north()),
    )
}

/// The points that both sets have.
pub fn meet_places(a: &Option<GridBox>, b: &Option<GridBox>) -> Option<GridBox>
    ensures { result ≡ place_meet a.now b.now }
{
    match (a, b) {
        (Some(a), Some(b)) => meet_boxes(a, b),
        _ => None,
    }
}
