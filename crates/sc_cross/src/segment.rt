//! Segments between two positions, and how they lie to each other.
ghost use Rattle.std.specs.Prelude.{◌≡◌, ◌↔◌, ◌≤◌, ◌^◌, pos, ◌-ℤ◌, ◌*ℤ◌, ◌≤ℤ◌, ◌<ℤ◌, IsTrue, unsigned_abs};
ghost use Rattle.std.specs.Int.{int_min, int_max};
ghost use Rattle.sc_geom.specs.Point.{IsInWorld, IsLongitude};
ghost use Rattle.sc_geom.specs.Rectangle.{Rectangle, AreOverlapping};
ghost use Rattle.sc_cross.specs.Segment.{side, turned, sides_of, IsSegmentInWorld, AreOnOneSide, Touches};

use sc_geom::{GridBox, Pt};

/// The straight way between two positions.
#[derive(Clone, Copy)]
pub struct Segment {
    pub from: Pt,
    pub to: Pt,
}

/// The same segment the other way round.
pub fn turned(segment: Segment) -> Segment
    ensures { result ≡ turned segment }
{
    Segment {
        from: segment.to,
        to: segment.from,
    }
}

/// How far the first coordinate lies from the second.
fn difference(a: i64, b: i64) -> i64
    requires a { IsLongitude a }
    requires b { IsLongitude b }
    ensures value { result ≡ a -ℤ b }
    ensures size { unsigned_abs result ≤ 2 ^ 33 }
{
    a - b
}

/// The product of two differences of coordinates, which may take 65 bits.
fn product(a: i64, b: i64) -> i128
    requires a { unsigned_abs a ≤ 2 ^ 33 }
    requires b { unsigned_abs b ≤ 2 ^ 33 }
    ensures value { result ≡ a *ℤ b }
    ensures size { unsigned_abs result ≤ 2 ^ 66 }
{
    i128::from(a) * i128::from(b)
}

/// The cross product of the segment's direction and the way from its start to the position: greater than 0 where the
/// position lies to the left of the segment's line, less than 0 to its right, and 0 on it.
pub fn side(segment: Segment, at: Pt) -> i128
    requires segment { IsSegmentInWorld segment }
    requires at { IsInWorld at }
    ensures { result ≡ side segment at }
{
    let east = difference(segment.to.x, segment.from.x);
    let north = difference(segment.to.y, segment.from.y);
    let east_at = difference(at.x, segment.from.x);
    let north_at = difference(at.y, segment.from.y);
    let left = product(east, north_at);
    let right = product(north, east_at);
    left - right
}

fn are_both_above(a: i128, b: i128) -> bool
    ensures { IsTrue result ↔ ((pos 0 <ℤ a) × (pos 0 <ℤ b)) }
{
    a > 0 && b > 0
}

fn are_both_below(a: i128, b: i128) -> bool
    ensures { IsTrue result ↔ ((a <ℤ pos 0) × (b <ℤ pos 0)) }
{
    a < 0 && b < 0
}

/// Whether both ends of the second lie strictly on one side of the first's line.
fn are_on_one_side(line: Segment, other: Segment) -> bool
    requires line { IsSegmentInWorld line }
    requires other { IsSegmentInWorld other }
    ensures { IsTrue result ↔ AreOnOneSide line other }
{
    let from = side(line, other.from);
    let to = side(line, other.to);
    are_both_above(from, to) || are_both_below(from, to)
}

fn lesser(a: i64, b: i64) -> i64
    ensures { result ≡ int_min a b }
{
    if b < a { b } else { a }
}

fn greater(a: i64, b: i64) -> i64
    ensures { result ≡ int_max a b }
{
    if b < a { a } else { b }
}

/// Whether two ranges have a number in common.
fn share_one(low: i64, high: i64, other_low: i64, other_high: i64) -> bool
    ensures { IsTrue result ↔ ((low ≤ℤ other_high) × (other_low ≤ℤ high)) }
{
    low <= other_high && other_low <= high
}

/// Whether a segment's smallest box and the box between four sides have a position in common.
fn reaches(segment: Segment, west: i64, south: i64, east: i64, north: i64) -> bool
    requires { IsSegmentInWorld segment }
    ensures { (box : Rectangle) → box ≡ record { west = west; south = south; east = east; north = north } →
        IsTrue result ↔ AreOverlapping (sides_of segment) box }
{
    let (from, to) = (segment.from, segment.to);
    share_one(lesser(from.x, to.x), greater(from.x, to.x), west, east)
        && share_one(lesser(from.y, to.y), greater(from.y, to.y), south, north)
}

/// Whether the smallest boxes of both have a position in common.
fn are_overlapping(a: Segment, b: Segment) -> bool
    requires a { IsSegmentInWorld a }
    requires b { IsSegmentInWorld b }
    ensures { IsTrue result ↔ AreOverlapping (sides_of a) (sides_of b) }
{
    reaches(
        a,
        lesser(b.from.x, b.to.x),
        lesser(b.from.y, b.to.y),
        greater(b.from.x, b.to.x),
        greater(b.from.y, b.to.y),
    )
}

/// Whether the segment's smallest box and the box have a position in common.
pub fn reaches_box(segment: Segment, extent: &GridBox) -> bool
    requires { IsSegmentInWorld segment }
    ensures { IsTrue result ↔ AreOverlapping (sides_of segment) extent.now }
{
    reaches(
        segment,
        extent.west(),
        extent.south(),
        extent.east(),
        extent.north(),
    )
}

/// Whether the segments touch, at an end too.
pub fn touches(a: Segment, b: Segment) -> bool
    requires a { IsSegmentInWorld a }
    requires b { IsSegmentInWorld b }
    ensures { IsTrue result ↔ Touches a b }
{
    if !are_overlapping(a, b) || are_on_one_side(a, b) {
        return false;
    }
    !are_on_one_side(b, a)
}
