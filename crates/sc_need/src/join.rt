//! Needs together: each of them, or one of them.
ghost use Rattle.std.specs.Prelude.{◌≡◌, ◌++◌, IfOk, filter};
ghost use Rattle.std.specs.Int.{int_max, int_min};
ghost use Rattle.sc_eval.specs.Selection.{is_one_of};
ghost use Rattle.sc_need.specs.Need.{both, both_limits, both_names, either, either_limits, either_names, greater, lesser, wider, without_places};

use crate::need::{Limits, Need};
use sc_base::{Seq, Text};
use sc_eval::Names;
use sc_geom::GridBox;
use sc_time::Instant;
use std::alloc::{AllocError, Global};

fn later(a: Instant, b: Instant) -> Instant
    ensures { result ≡ int_max a b }
{
    if a.nanoseconds() < b.nanoseconds() {
        b
    } else {
        a
    }
}

fn earlier(a: Instant, b: Instant) -> Instant
    ensures { result ≡ int_min a b }
{
    if b.nanoseconds() < a.nanoseconds() {
        b
    } else {
        a
    }
}

/// The later of two, or the one that is there.
fn greater(a: Option<Instant>, b: Option<Instant>) -> Option<Instant>
    ensures { result ≡ greater a b }
{
    match (a, b) {
        (None, b) => b,
        (Some(a), None) => Some(a),
        (Some(a), Some(b)) => Some(later(a, b)),
    }
}

/// The earlier of two, or the one that is there.
fn lesser(a: Option<Instant>, b: Option<Instant>) -> Option<Instant>
    ensures { result ≡ lesser a b }
{
    match (a, b) {
        (None, b) => b,
        (Some(a), None) => Some(a),
        (Some(a), Some(b)) => Some(earlier(a, b)),
    }
}

fn both_limits(a: Limits, b: Limits) -> Limits
    ensures { result ≡ both_limits a b }
{
    Limits {
        low: greater(a.low, b.low),
        high: lesser(a.high, b.high),
    }
}

/// The names of the first that are in the second.
fn names_in_both(alloc: Global, a: Seq<Text>, b: &Seq<Text>) -> Result<Seq<Text>, AllocError>
    ensures { IfOk result (λ names. names ≡ filter (is_one_of b.now) a) }
{
    let table = Names::of(alloc, b.as_slice())?;
    let mut names = a.into_vec();
    names.retain(|name| table.has(name.as_str()));
    Ok(Seq::of(names))
}

fn both_names(
    alloc: Global,
    a: Option<Seq<Text>>,
    b: Option<Seq<Text>>,
) -> Result<Option<Seq<Text>>, AllocError>
    ensures { IfOk result (λ names. names ≡ both_names a b) }
{
    match (a, b) {
        (None, b) => Ok(b),
        (Some(a), None) => Ok(Some(a)),
        (Some(a), Some(b)) => Ok(Some(names_in_both(alloc, a, &b)?)),
    }
}

fn places_joined(
    a: Seq<Seq<GridBox>>,
    b: Seq<Seq<GridBox>>,
) -> Result<Seq<Seq<GridBox>>, AllocError>
    ensures { IfOk result (λ places. places ≡ a ++ b) }
{
    let mut places = a.into_vec();
    places.append(&mut b.into_vec())?;
    Ok(Seq::of(places))
}

/// The need of an item that has both needs.
pub(crate) fn both(alloc: Global, a: Need, b: Need) -> Result<Need, AllocError>
    ensures { IfOk result (λ need. need ≡ both a b) }
{
    Ok(Need {
        collections: both_names(alloc, a.collections, b.collections)?,
        starts: both_limits(a.starts, b.starts),
        ends: both_limits(a.ends, b.ends),
        places: places_joined(a.places, b.places)?,
    })
}

/// The earlier of two, where both are there.
fn least(a: Option<Instant>, b: Option<Instant>) -> Option<Instant>
    ensures { result ≡ wider int_min a b }
{
    match (a, b) {
        (Some(a), Some(b)) => Some(earlier(a, b)),
        _ => None,
    }
}

/// The later of two, where both are there.
fn greatest(a: Option<Instant>, b: Option<Instant>) -> Option<Instant>
    ensures { result ≡ wider int_max a b }
{
    match (a, b) {
        (Some(a), Some(b)) => Some(later(a, b)),
        _ => None,
    }
}

fn either_limits(a: Limits, b: Limits) -> Limits
    ensures { result ≡ either_limits a b }
{
    Limits {
        low: least(a.low, b.low),
        high: greatest(a.high, b.high),
    }
}

fn names_joined(a: Seq<Text>, b: Seq<Text>) -> Result<Seq<Text>, AllocError>
    ensures { IfOk result (λ names. names ≡ a ++ b) }
{
    let mut names = a.into_vec();
    names.append(&mut b.into_vec())?;
    Ok(Seq::of(names))
}

fn either_names(a: Option<Seq<Text>>, b: Option<Seq<Text>>) -> Result<Option<Seq<Text>>, AllocError>
    ensures { IfOk result (λ names. names ≡ either_names a b) }
{
    match (a, b) {
        (Some(a), Some(b)) => Ok(Some(names_joined(a, b)?)),
        _ => Ok(None),
    }
}

/// The need of an item that has one of the needs.
pub(crate) fn either(alloc: Global, a: Need, b: Need) -> Result<Need, AllocError>
    ensures { IfOk result (λ need. need ≡ either a b) }
{
    Ok(Need {
        collections: either_names(a.collections, b.collections)?,
        starts: either_limits(a.starts, b.starts),
        ends: either_limits(a.ends, b.ends),
        places: Seq::new(alloc),
    })
}

pub(crate) fn without_places(alloc: Global, need: Need) -> Need
    ensures { result ≡ without_places need }
{
    Need {
        collections: need.collections,
        starts: need.starts,
        ends: need.ends,
        places: Seq::new(alloc),
    }
}
