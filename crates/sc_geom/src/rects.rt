ghost use Rattle.std.specs.Prelude.{◌≡◌, IfSome, MatchOption};
ghost use Rattle.sc_geom.specs.Point.{IsLongitude, IsLatitude};
ghost use Rattle.sc_geom.specs.Rects.{sides_between, sides_of, SpannedBy, Answers, AreInRange};

use crate::boxes::GridBox;
use crate::place::{latitude, longitude};
use sc_decimal::Dec;

const EAST_END: i64 = 1_800_000_000;

const WEST_END: i64 = -1_800_000_000;

/// What a bounding box covers: one box, or two where it crosses the antimeridian, from its west to 180 degrees and from
/// -180 degrees to its east.
#[derive(Clone, Copy, Debug, PartialEq, Eq)]
pub struct Rects {
    pub first: GridBox,
    pub second: Option<GridBox>,
}

/// The sides of a box on the grid, where west may be greater than east.
#[derive(Clone, Copy)]
struct Sides {
    west: i64,
    south: i64,
    east: i64,
    north: i64,
}

fn sides_between(west: &Dec, south: &Dec, east: &Dec, north: &Dec) -> Option<Sides>
    ensures sides { result ≡ sides_between west.now south.now east.now north.now }
    ensures range { IfSome result AreInRange }
{
    let west = longitude(west)?;
    let south = latitude(south)?;
    let east = longitude(east)?;
    let north = latitude(north)?;
    Some(Sides {
        west,
        south,
        east,
        north,
    })
}

/// The sides that four or six numbers are.
fn sides_of(numbers: &[Dec]) -> Option<Sides>
    ensures sides { result ≡ sides_of numbers.now }
    ensures range { IfSome result AreInRange }
{
    if numbers.len() == 4 {
        return sides_between(&numbers[0], &numbers[1], &numbers[2], &numbers[3]);
    }
    if numbers.len() == 6 {
        return sides_between(&numbers[0], &numbers[1], &numbers[3], &numbers[4]);
    }
    None
}

fn rects_of_sides(sides: Sides) -> Option<Rects>
    requires { AreInRange sides }
    ensures { SpannedBy sides result }
{
    let Sides {
        west,
        south,
        east,
        north,
    } = sides;
    if south > north {
        return None;
    }
    if west <= east {
        return Some(Rects {
            first: GridBox::new(west, south, east, north),
            second: None,
        });
    }
    if west > EAST_END || east < WEST_END {
        return None;
    }
    Some(Rects {
        first: GridBox::new(west, south, EAST_END, north),
        second: Some(GridBox::new(WEST_END, south, east, north)),
    })
}

/// The boxes of a bounding box (RFC 7946 §5): west, south, east and north in degrees, or six numbers
/// with a height third and sixth, which is not read. Numbers are compared on the grid.
///
/// `None` exactly where there are not 4 or 6 numbers, a coordinate is out of range, south is greater than north,
/// or west is greater than east and west is above 180 degrees or east below -180 degrees.
pub fn rects_of_bbox(numbers: &[Dec]) -> Option<Rects>
    ensures { Answers numbers.now result }
{
    let sides = sides_of(numbers)?;
    rects_of_sides(sides)
}
