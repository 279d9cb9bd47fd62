ghost use Rattle.std.specs.Prelude.{◌≡◌};
ghost use Rattle.std.specs.List.{list_all, list_any};
ghost use Rattle.sc_geom.specs.Rectangle.{overlap};
ghost use Rattle.sc_need.specs.Match.{from_low, may_lie, may_match, may_touch, to_high};

use crate::need::{Limits, Need};
use sc_base::Seq;
use sc_bounds::Bounds;
use sc_cut::PartName;
use sc_eval::is_listed;
use sc_geom::GridBox;
use sc_time::Instant;

fn from_low(low: Option<Instant>, last: Instant) -> bool
    ensures { result ≡ from_low low last }
{
    match low {
        None => true,
        Some(low) => low.nanoseconds() <= last.nanoseconds(),
    }
}

fn to_high(high: Option<Instant>, first: Instant) -> bool
    ensures { result ≡ to_high high first }
{
    match high {
        None => true,
        Some(high) => first.nanoseconds() <= high.nanoseconds(),
    }
}

fn may_lie(limits: Limits, moments: Option<(Instant, Instant)>) -> bool
    ensures { result ≡ may_lie limits moments }
{
    match moments {
        None => false,
        Some((first, last)) => from_low(limits.low, last) && to_high(limits.high, first),
    }
}

fn touches_one(place: &GridBox, boxes: &[GridBox]) -> bool
    ensures { result ≡ list_any (overlap place.now) boxes.now }
{
    for one in boxes {
        if place.overlaps(one) {
            return true;
        }
    }
    false
}

fn may_touch(place: &Option<GridBox>, boxes: &[GridBox]) -> bool
    ensures { result ≡ may_touch place.now boxes.now }
{
    match place {
        None => false,
        Some(place) => touches_one(place, boxes),
    }
}

fn touches_all(place: &Option<GridBox>, places: &[Seq<GridBox>]) -> bool
    ensures { result ≡ list_all (may_touch place.now) places.now }
{
    for boxes in places {
        if !may_touch(place, boxes.as_slice()) {
            return false;
        }
    }
    true
}

/// Whether a part of this name with these bounds may have an item that has what the need says. Takes no memory.
///
/// The collection is one of the names, the bounds of starts and of ends have moments within the limits, and for each list
/// of boxes one has a position in common with the bounds' place; touching counts.
#[tactic(auto, unfolding(crate::specs::Match::may_match))]
pub fn may_match(need: &Need, bounds: &Bounds, name: &PartName) -> bool
    ensures { result ≡ may_match need.now bounds.now name.now }
{
    if !may_lie(need.starts, bounds.starts()) {
        return false;
    }
    if !may_lie(need.ends, bounds.ends()) {
        return false;
    }
    if !is_listed(&need.collections, &name.collection) {
        return false;
    }
    touches_all(&bounds.place(), need.places.as_slice())
}
