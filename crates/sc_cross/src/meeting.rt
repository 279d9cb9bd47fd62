ghost use Rattle.std.specs.Prelude.{◌≡◌, ◌↔◌, IsTrue, All, Any};
ghost use Rattle.sc_geom.specs.Rectangle.{Holds};
ghost use Rattle.sc_geom.specs.Shapes.{positions_of};
ghost use Rattle.sc_cross.specs.Meets.{Meets, SomePair};
ghost use Rattle.sc_cross.specs.Meeting.{do_meet};

use crate::entering::enters;
use crate::touching::{points_touch, segments_touch};
use sc_geom::{Geom, GridBox, Pt, box_of};

/// Whether the point is among the others.
fn is_one_of(point: Pt, others: &[Pt]) -> bool
    ensures { IsTrue result ↔ Any (λ other. point ≡ other) others.now }
{
    others.iter().any(|other| point == *other)
}

fn have_equal(points: &[Pt], others: &[Pt]) -> bool
    ensures { IsTrue result ↔ SomePair (λ p q. p ≡ q) points.now others.now }
{
    points.iter().any(|point| is_one_of(*point, others))
}

/// Whether two points are equal, one of each geometry.
fn share_a_point(a: &Geom, b: &Geom) -> bool
    ensures { IsTrue result ↔ SomePair (λ p q. p ≡ q) a.now.points b.now.points }
{
    have_equal(a.points(), b.points())
}

/// Whether the geometries meet, each of which lies in its box.
fn meet_in_boxes(a: &Geom, b: &Geom, of_a: &GridBox, of_b: &GridBox) -> bool
    requires of_a { All (Holds of_a.now) (positions_of a.now) }
    requires of_b { All (Holds of_b.now) (positions_of b.now) }
    ensures { IsTrue result ↔ Meets a.now b.now }
{
    if share_a_point(a, b) {
        return true;
    }
    if points_touch(a, b, of_b) {
        return true;
    }
    if points_touch(b, a, of_a) {
        return true;
    }
    if enters(a, b, of_b) {
        return true;
    }
    if enters(b, a, of_a) {
        return true;
    }
    segments_touch(a, b, of_b)
}

/// The same as [`meets`], where the caller knows a box of each geometry that holds all its positions.
pub fn meets_within(a: &Geom, of_a: &GridBox, b: &Geom, of_b: &GridBox) -> bool
    requires of_a { All (Holds of_a.now) (positions_of a.now) }
    requires of_b { All (Holds of_b.now) (positions_of b.now) }
    ensures meets { IsTrue result ↔ Meets a.now b.now }
    ensures test { result ≡ do_meet a.now b.now }
{
    let _points = a.points();
    let _others = b.points();
    of_a.overlaps(of_b) && meet_in_boxes(a, b, of_a, of_b)
}

/// Whether two geometries meet: two points are equal, or a point of one is on a segment of the other, or two segments
/// touch, or a position of one lies in an area of the other. Touching counts, at an end too; a hole's inside is no part
/// of its area.
///
/// Segments are those of lines and of rings. A position lies in an area where the way from it to the east crosses an odd
/// number of the edges of all its rings. All products are exact. It takes no memory, and looks at boxes first.
pub fn meets(a: &Geom, b: &Geom) -> bool
    ensures meets { IsTrue result ↔ Meets a.now b.now }
    ensures test { result ≡ do_meet a.now b.now }
{
    meets_within(a, &box_of(a), b, &box_of(b))
}
