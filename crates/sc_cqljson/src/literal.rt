ghost use Rattle.std.specs.Prelude.{◌≡◌, MatchResult, IfOk};
ghost use Rattle.std.specs.Option.{option_map};
ghost use Rattle.sc_cqljson.specs.Drawn.{instant_in, date_in, numbers_in, BoxOf, PlainOf};
ghost use Rattle.sc_cqljson.specs.Told.{CantBeDrawn, fault_by};

use sc_expr::{CqlFault, Dec, Geom, Instant};
use sc_geom::{GeomFault, geom_of_json, geom_of_rects, rects_of_bbox};
use sc_json::Json;
use sc_time::{read_date, read_instant};
use std::alloc::{AllocError, Global};

/// The most positions that a geometry in a filter has.
const POSITIONS: u32 = 1_000;

/// The moment of a value under `timestamp` (RFC 3339 §5.6).
#[tactic(auto, unfolding(crate::specs::Drawn::instant_in))]
pub(crate) fn instant_in(value: &Json) -> Option<Instant>
    ensures { result ≡ instant_in value.now }
{
    match value.as_text() {
        Some(text) => read_instant(text.bytes()).ok(),
        None => None,
    }
}

/// The moment of a value under `date`: its midnight in UTC.
#[tactic(auto, unfolding(crate::specs::Drawn::date_in))]
pub(crate) fn date_in(value: &Json) -> Option<Instant>
    ensures { result ≡ date_in value.now }
{
    match value.as_text() {
        Some(text) => read_date(text.bytes()).ok(),
        None => None,
    }
}

/// The numbers that a list is; none where it is no list, or one of its elements no number.
#[tactic(auto, unfolding(crate::specs::Drawn::numbers_in))]
fn numbers_in(alloc: Global, value: &Json) -> Result<Option<Vec<Dec>>, AllocError>
    ensures { IfOk result (λ found. option_map (λ numbers. numbers.items) found ≡ numbers_in value.now) }
{
    let Some(elements) = value.as_list() else {
        return Ok(None);
    };
    let mut numbers = Vec::with_capacity(alloc, elements.len())?;
    for element in elements {
        match element.as_number() {
            Some(number) => numbers.push(*number)?,
            None => return Ok(None),
        }
    }
    Ok(Some(numbers))
}

/// The geometry of a value under `bbox`, or `BadLiteral` where there is none.
pub(crate) fn read_box(alloc: Global, value: &Json) -> Result<Geom, CqlFault>
    ensures { MatchResult result (BoxOf value.now) (CantBeDrawn (BoxOf value.now)) }
{
    let Some(numbers) = numbers_in(alloc, value)? else {
        return Err(CqlFault::BadLiteral { at: 0 });
    };
    match rects_of_bbox(numbers.as_slice()) {
        Some(rects) => Ok(geom_of_rects(alloc, &rects)?),
        None => Err(CqlFault::BadLiteral { at: 0 }),
    }
}

/// The fault of a filter whose geometry has a fault.
fn unreadable(fault: GeomFault) -> CqlFault
    ensures { result ≡ fault_by fault }
{
    match fault {
        GeomFault::OutOfMemory => CqlFault::OutOfMemory,
        _ => CqlFault::BadLiteral { at: 0 },
    }
}

/// The geometry of an object of GeoJSON (RFC 7946 §3.1), or `BadLiteral` where it is none of at most 1,000 positions.
pub(crate) fn read_geometry(alloc: Global, tree: &Json) -> Result<Geom, CqlFault>
    ensures { MatchResult result (PlainOf tree.now) (CantBeDrawn (PlainOf tree.now)) }
{
    match geom_of_json(alloc, tree, POSITIONS) {
        Ok(geometry) => Ok(geometry),
        Err(fault) => Err(unreadable(fault)),
    }
}
