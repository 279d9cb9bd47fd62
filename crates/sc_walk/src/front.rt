ghost use Rattle.std.specs.Prelude.{◌≡◌, Some, option_map};
ghost use Rattle.std.specs.Arc.{arc_value};
ghost use Rattle.std.specs.Option.{option_copied};
ghost use Rattle.sc_sort.specs.declared.value.SortValue.TheVariants.{Moment};
ghost use Rattle.sc_sort.specs.Order.{order_by};
ghost use Rattle.sc_walk.specs.Walk.{begins_with_time, first_start, first_moment, front_order, is_ahead, is_done, may_follow, reaches};

use sc_item::Item;
use sc_shelf::KeptPart;
use sc_sort::{Instant, KeyList, SortSpec, SortValue};
use std::cmp::Ordering;
use std::sync::Arc;

/// The first start of a part in a direction: its latest where the direction is down, else its earliest.
fn first_start(down: bool, part: &KeptPart) -> Option<Instant>
    ensures { result ≡ first_start down part.now }
{
    match part.bounds().starts() {
        None => None,
        Some((first, last)) => Some(if down { last } else { first }),
    }
}

/// Which of two moments comes first in a direction.
fn compare_moments(down: bool, a: Instant, b: Instant) -> Ordering
    ensures { result ≡ order_by down (Some (Moment a)) (Some (Moment b)) }
{
    if down {
        b.nanoseconds().cmp(&a.nanoseconds())
    } else {
        a.nanoseconds().cmp(&b.nanoseconds())
    }
}

/// Which of two moments comes first in a direction; none comes last.
fn compare_starts(down: bool, a: Option<Instant>, b: Option<Instant>) -> Ordering
    ensures { result ≡ order_by down (option_map Moment a) (option_map Moment b) }
{
    match (a, b) {
        (None, None) => Ordering::Equal,
        (None, Some(_)) => Ordering::Greater,
        (Some(_), None) => Ordering::Less,
        (Some(a), Some(b)) => compare_moments(down, a, b),
    }
}

/// Which of two parts has the earlier front by the first key of a sort.
pub(crate) fn compare_fronts(sort: &SortSpec, a: &KeptPart, b: &KeptPart) -> Ordering
    ensures { result ≡ front_order sort.now a.now b.now }
{
    let Some((key, _)) = sort.keys().split_first() else {
        return Ordering::Equal;
    };
    if !key.is_of_time() {
        return Ordering::Equal;
    }
    compare_starts(key.down, first_start(key.down, a), first_start(key.down, b))
}

/// Whether an item comes strictly before the front of a part by the first key of a sort.
#[tactic(auto, using(crate::proofs::Times::time_value))]
fn is_ahead(sort: &SortSpec, part: &KeptPart, item: &Item) -> bool
    ensures { result ≡ is_ahead sort.now part.now item.now }
{
    let Some((key, _)) = sort.keys().split_first() else {
        return false;
    };
    if !key.is_of_time() {
        return false;
    }
    compare_starts(key.down, Some(item.start()), first_start(key.down, part)).is_lt()
}

/// Whether a sort begins with the time.
pub(crate) fn begins_with_time(sort: &SortSpec) -> bool
    ensures { result ≡ begins_with_time sort.now }
{
    match sort.keys().split_first() {
        None => false,
        Some((key, _)) => key.is_of_time(),
    }
}

/// Whether the last of the first items, where there are as many as are kept, comes strictly before the front of a part.
pub(crate) fn is_done(sort: &SortSpec, last: Option<&Arc<Item>>, part: &KeptPart) -> bool
    ensures { result ≡ is_done sort.now (option_map (λ i. arc_value i.now) last.entry) part.now }
{
    match last {
        None => false,
        Some(last) => is_ahead(sort, part, last),
    }
}

/// The moment that the values of a place begin with.
fn first_moment(values: &[SortValue]) -> Option<Instant>
    ensures { result ≡ first_moment values.now }
{
    match values.split_first() {
        Some((SortValue::Moment(at), _)) => Some(*at),
        _ => None,
    }
}

/// Whether not all of the starts come strictly before a moment in a direction.
fn reaches(down: bool, at: Instant, starts: Option<(Instant, Instant)>) -> bool
    ensures { result ≡ reaches down at starts }
{
    match starts {
        None => false,
        Some((first, last)) => {
            if down {
                first.nanoseconds() <= at.nanoseconds()
            } else {
                at.nanoseconds() <= last.nanoseconds()
            }
        }
    }
}

/// Whether a part may have an item behind a place.
pub(crate) fn may_follow(sort: &SortSpec, after: Option<&KeyList>, part: &KeptPart) -> bool
    ensures { result ≡ may_follow sort.now (option_copied after.entry) part.now }
{
    let Some((key, _)) = sort.keys().split_first() else {
        return true;
    };
    let Some(place) = after else {
        return true;
    };
    let Some(at) = first_moment(place.values()) else {
        return true;
    };
    if !key.is_of_time() {
        return true;
    }
    reaches(key.down, at, part.bounds().starts())
}
