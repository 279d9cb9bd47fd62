ghost use Rattle.std.specs.Prelude.{◌≡◌, ◌≢◌, Some, IfOk, MatchOption};
ghost use Rattle.sc_geom.specs.declared.fault.GeomFault.TheVariants as geometries;
ghost use Rattle.sc_query.specs.declared.fault.QueryFault.TheVariants.{BadIntersects, OutOfMemory};
ghost use Rattle.sc_geom.specs.declared.rects.Rects.{Rects as Boxes};
ghost use Rattle.std.specs.Option.{option_map};
ghost use Rattle.sc_base.specs.Parts.{parts_between};
ghost use Rattle.sc_json.specs.Views.{number_of};
ghost use Rattle.sc_geom.specs.Drawn.{all_read};
ghost use Rattle.sc_query.specs.Words as words;
ghost use Rattle.sc_query.specs.Given.{in_text, in_tree, text_given};
ghost use Rattle.sc_query.specs.Space.{number_in_text, numbers_given, IsBbox, BboxReads, DatetimeReads, time_of_text, IntersectsReads, only_one};
ghost use Rattle.sc_query.specs.Reading.{Answers, Optional};
ghost use Rattle.sc_query.specs.Sources.{told, parameters};

use crate::fault::{QueryFault, unspelled};
use crate::given::{Given, Source};
use crate::words::{bbox_name, datetime_name, intersects_name};
use sc_base::{Text, first_part};
use sc_decimal::Dec;
use sc_geom::{Geom, GeomFault, Rects, geom_of_json, rects_of_bbox};
use sc_json::{Json, read_json};
use sc_time::{Range, TimeFault, read_range};
use std::alloc::{AllocError, Global};

/// The most positions of a geometry.
const MOST_POSITIONS: u32 = 1_000;

/// The number that a text is, where it isn't too wide.
fn number_in_text(text: &[u8]) -> Option<Dec>
    ensures { result ≡ number_in_text text.now }
{
    match Dec::read(text) {
        Ok(number) => Some(number),
        Err(_) => None,
    }
}

/// The numbers of a text between commas; none where one of them is none.
fn numbers_in_text(alloc: Global, text: &[u8]) -> Result<Option<Vec<Dec>>, AllocError>
    ensures { IfOk result (λ found. option_map (λ numbers. numbers.items) found ≡ all_read number_in_text (parts_between 44 text.now)) }
{
    let mut numbers = Vec::new(alloc);
    let mut left = Some(text);
    while let Some(text) = left {
        let (part, rest) = first_part(b',', text);
        let Some(number) = number_in_text(part) else {
            return Ok(None);
        };
        numbers.push(number)?;
        left = rest;
    }
    Ok(Some(numbers))
}

/// The numbers that values are; none where one of them is none.
fn numbers_in(alloc: Global, values: &[Json]) -> Result<Option<Vec<Dec>>, AllocError>
    ensures { IfOk result (λ found. option_map (λ numbers. numbers.items) found ≡ all_read number_of values.now) }
{
    let mut numbers = Vec::with_capacity(alloc, values.len())?;
    for value in values {
        match value.as_number() {
            Some(number) => numbers.push(*number)?,
            None => return Ok(None),
        }
    }
    Ok(Some(numbers))
}

/// The numbers that are given, between commas or in a list.
fn numbers_given(alloc: Global, given: Given<'_>) -> Result<Option<Vec<Dec>>, AllocError>
    ensures { IfOk result (λ found. option_map (λ numbers. numbers.items) found ≡ numbers_given (told given.entry)) }
{
    match given {
        Given::Text(text) => numbers_in_text(alloc, text.bytes()),
        Given::Tree(tree) => match tree.as_list() {
            Some(values) => numbers_in(alloc, values),
            None => Ok(None),
        },
    }
}

/// The boxes of the numbers that are given; none where they have none.
fn rects_given(alloc: Global, given: Given<'_>) -> Result<Option<Rects>, AllocError>
    ensures { IfOk result (λ found. MatchOption found ((rects : Boxes) → IsBbox (told given.entry) rects → ⊥) (IsBbox (told given.entry))) }
{
    let numbers = numbers_given(alloc, given)?;
    match numbers {
        Some(numbers) => Ok(rects_of_bbox(numbers.as_slice())),
        None => Ok(None),
    }
}

/// The boxes of a bounding box.
fn bbox_of(alloc: Global, given: Given<'_>) -> Result<Rects, QueryFault>
    ensures { Answers (BboxReads (told given.entry)) result }
{
    match rects_given(alloc, given)? {
        Some(rects) => Ok(rects),
        None => Err(QueryFault::BadBbox),
    }
}

/// The boxes of a bounding box (STAC API, Item Search, `bbox`; RFC 7946 §5).
pub(crate) fn rects_of(alloc: Global, source: Source<'_>) -> Result<Option<Rects>, QueryFault>
    ensures { Answers (Optional BboxReads (parameters source.entry words.bbox_name)) result }
{
    match source.given(bbox_name()) {
        Some(given) => Ok(Some(bbox_of(alloc, given)?)),
        None => Ok(None),
    }
}

/// A range of time, which is a text.
fn range_of(given: Given<'_>) -> Result<Range, QueryFault>
    ensures { result ≡ time_of_text (text_given (told given.entry)) }
{
    let Some(text) = given.text() else {
        let fault = TimeFault::BadForm;
        return Err(QueryFault::BadDatetime { fault });
    };
    match read_range(text.bytes()) {
        Ok(range) => Ok(range),
        Err(fault) => Err(QueryFault::BadDatetime { fault }),
    }
}

/// A range of time (STAC API, Item Search, `datetime`).
pub(crate) fn time_of(source: Source<'_>) -> Result<Option<Range>, QueryFault>
    ensures { Answers (Optional DatetimeReads (parameters source.entry words.datetime_name)) result }
{
    match source.given(datetime_name()) {
        Some(given) => Ok(Some(range_of(given)?)),
        None => Ok(None),
    }
}

/// The fault of a search whose geometry has this one, or want of memory.
fn no_shape(fault: GeomFault) -> QueryFault
    ensures known { result ≢ OutOfMemory → fault ≢ geometries.OutOfMemory }
    ensures bad { result ≢ OutOfMemory → result ≡ BadIntersects (Some fault) }
{
    match fault {
        GeomFault::OutOfMemory => QueryFault::OutOfMemory,
        fault => QueryFault::BadIntersects { fault: Some(fault) },
    }
}

/// The geometry that a value is.
fn shape_in(alloc: Global, tree: &Json) -> Result<Geom, QueryFault>
    ensures { Answers (IntersectsReads (in_tree tree.now)) result }
{
    match geom_of_json(alloc, tree, MOST_POSITIONS) {
        Ok(geometry) => Ok(geometry),
        Err(fault) => Err(no_shape(fault)),
    }
}

/// The geometry that a text spells.
fn shape_in_text(alloc: Global, text: &Text) -> Result<Geom, QueryFault>
    ensures { Answers (IntersectsReads (in_text text.now)) result }
{
    match read_json(alloc, text.bytes()) {
        Ok(tree) => shape_in(alloc, &tree),
        Err(fault) => Err(unspelled(fault, QueryFault::BadIntersects { fault: None })),
    }
}

/// The geometry that is given, as a value or as a text that spells one.
fn shape_given(alloc: Global, given: Given<'_>) -> Result<Geom, QueryFault>
    ensures { Answers (IntersectsReads (told given.entry)) result }
{
    match given {
        Given::Text(text) => shape_in_text(alloc, text),
        Given::Tree(tree) => shape_in(alloc, tree),
    }
}

/// A geometry of at most 1,000 positions (STAC API, Item Search, `intersects`; RFC 7946 §3.1).
pub(crate) fn shape_of(alloc: Global, source: Source<'_>) -> Result<Option<Geom>, QueryFault>
    ensures { Answers (Optional IntersectsReads (parameters source.entry words.intersects_name)) result }
{
    match source.given(intersects_name()) {
        Some(given) => Ok(Some(shape_given(alloc, given)?)),
        None => Ok(None),
    }
}

/// That a box and a geometry aren't both given.
pub(crate) fn only_one(rects: &Option<Rects>, shape: &Option<Geom>) -> Result<(), QueryFault>
    ensures { result ≡ only_one rects.now shape.now }
{
    if rects.is_some() && shape.is_some() {
        Err(QueryFault::BboxAndIntersects)
    } else {
        Ok(())
    }
}
