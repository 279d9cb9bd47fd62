ghost use Rattle.std.specs.Prelude.{◌≡◌, IfOk};
ghost use Rattle.sc_geom.specs.Rects.{rectangles_from};
ghost use Rattle.sc_need.specs.Need.{free, no_limits, of_collections, of_places, of_starts};

use sc_base::{Seq, Text};
use sc_geom::GridBox;
use sc_time::Instant;
use std::alloc::{AllocError, Global};

/// The least and the greatest instant that serve; where one is missing, there is no such limit.
#[derive(Clone, Copy, Debug, PartialEq, Eq)]
pub struct Limits {
    pub low: Option<Instant>,
    pub high: Option<Instant>,
}

/// What an item has if it is selected: its collection is one of the names, its start and its end lie within limits, and
/// for each list of boxes its place has a position in common with one of them.
#[derive(Debug, Drop)]
pub struct Need {
    pub collections: Option<Seq<Text>>,
    pub starts: Limits,
    pub ends: Limits,
    pub places: Seq<Seq<GridBox>>,
}

pub(crate) fn no_limits() -> Limits
    ensures { result ≡ no_limits }
{
    Limits {
        low: None,
        high: None,
    }
}

/// The need that every item has.
pub(crate) fn free(alloc: Global) -> Need
    ensures { result ≡ free }
{
    Need {
        collections: None,
        starts: no_limits(),
        ends: no_limits(),
        places: Seq::new(alloc),
    }
}

/// The start lies within limits.
pub(crate) fn of_starts(alloc: Global, limits: Limits) -> Need
    ensures { result ≡ of_starts limits }
{
    Need {
        collections: None,
        starts: limits,
        ends: no_limits(),
        places: Seq::new(alloc),
    }
}

/// The collection is one of these.
pub(crate) fn of_collections(alloc: Global, names: Seq<Text>) -> Need
    ensures { result ≡ of_collections names }
{
    Need {
        collections: Some(names),
        starts: no_limits(),
        ends: no_limits(),
        places: Seq::new(alloc),
    }
}

/// One box or two.
fn boxes_from(
    alloc: Global,
    first: GridBox,
    second: Option<GridBox>,
) -> Result<Seq<GridBox>, AllocError>
    ensures { IfOk result (λ boxes. boxes ≡ rectangles_from first second) }
{
    let mut boxes = Seq::new(alloc);
    boxes.push(first)?;
    match second {
        None => {}
        Some(second) => boxes.push(second)?,
    }
    Ok(boxes)
}

/// The place touches one of one or two boxes.
pub(crate) fn of_places(
    alloc: Global,
    first: GridBox,
    second: Option<GridBox>,
) -> Result<Need, AllocError>
    ensures { IfOk result (λ need. need ≡ of_places (rectangles_from first second)) }
{
    let mut places = Seq::new(alloc);
    places.push(boxes_from(alloc, first, second)?)?;
    Ok(Need {
        collections: None,
        starts: no_limits(),
        ends: no_limits(),
        places,
    })
}
