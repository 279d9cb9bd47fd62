ghost use Rattle.std.specs.Prelude.{◌≡◌};
ghost use Rattle.sc_cqlvalue.specs.Boxes as boxes;

use sc_decimal::Dec;
use sc_geom::{Rects, rects_of_bbox};

/// The rectangles of a box.
pub(crate) fn rects_of(numbers: &[Dec]) -> Option<Rects>
    ensures { result ≡ boxes.rects_of numbers.now }
{
    rects_of_bbox(numbers)
}
