ghost use Rattle.std.specs.Prelude.{◌≡◌, ◌++◌, ◌∷◌, [], List, All};
ghost use Rattle.sc_geom.specs.declared.point.Pt.{Pt as PtRecord};
ghost use Rattle.sc_geom.specs.Point.{IsInWorld};
ghost use Rattle.sc_geom.specs.Shapes.{joined, positions_of};
ghost use Rattle.sc_geom.specs.Rectangle.{IsSmallest, Encloses};

use crate::boxes::GridBox;
use crate::geom::Geom;
use crate::point::Pt;
use sc_base::Seq;

/// The smallest box that holds the box, if there is one, and the position.
fn with_point(extent: Option<GridBox>, point: Pt) -> GridBox
    requires { IsInWorld point }
    ensures { (before : List PtRecord) → Encloses extent before → IsSmallest result (before ++ point ∷ []) }
{
    match extent {
        None => GridBox::new(point.x, point.y, point.x, point.y),
        Some(extent) => GridBox::new(
            extent.west().min(point.x),
            extent.south().min(point.y),
            extent.east().max(point.x),
            extent.north().max(point.y),
        ),
    }
}

fn over_points(extent: Option<GridBox>, points: &[Pt]) -> Option<GridBox>
    requires { All IsInWorld points.now }
    ensures { (before : List PtRecord) → Encloses extent before → Encloses result (before ++ points.now) }
{
    let mut extent = extent;
    for point in points {
        extent = Some(with_point(extent, *point));
    }
    extent
}

fn over_lists(extent: Option<GridBox>, lists: &[Seq<Pt>]) -> Option<GridBox>
    requires { All IsInWorld (joined lists.now) }
    ensures { (before : List PtRecord) → Encloses extent before → Encloses result (before ++ joined lists.now) }
{
    let mut extent = extent;
    for list in lists {
        extent = over_points(extent, list.as_slice());
    }
    extent
}

fn over_areas(extent: Option<GridBox>, areas: &[Seq<Seq<Pt>>]) -> Option<GridBox>
    requires { All IsInWorld (joined (joined areas.now)) }
    ensures { (before : List PtRecord) → Encloses extent before →
        Encloses result (before ++ joined (joined areas.now)) }
{
    let mut extent = extent;
    for rings in areas {
        extent = over_lists(extent, rings.as_slice());
    }
    extent
}

/// The smallest box that holds every position. It takes no memory.
pub fn box_of(geom: &Geom) -> GridBox
    ensures { IsSmallest result (positions_of geom.now) }
{
    let extent = over_points(None, geom.points());
    let extent = over_lists(extent, geom.lines());
    match over_areas(extent, geom.areas()) {
        Some(extent) => extent,
        None => unreachable!(),
    }
}
