ghost use Rattle.std.specs.Prelude.{◌≡◌};
ghost use Rattle.std.specs.Option.{option_copied};
ghost use Rattle.std.specs.Ordering.{ordering_then};
ghost use Rattle.sc_base.specs.Text.{text_order};
ghost use Rattle.sc_sort.specs.Order.{rank, value_order, order_by, values_order, keys_order, first_there, others};

use crate::key::{Key, SortSpec};
use crate::key_list::KeyList;
use crate::value::SortValue;
use std::cmp::Ordering;

/// The place of a value's kind in ascending order.
fn rank(value: &SortValue) -> u8
    ensures { result ≡ rank value.now }
{
    match value {
        SortValue::Moment(_) => 0,
        SortValue::Number(_) => 1,
        SortValue::Text(_) => 2,
        SortValue::Truth(false) => 3,
        SortValue::Truth(true) => 4,
        SortValue::Absent => 5,
    }
}

/// Which of two values comes first in ascending order.
fn compare_values(a: &SortValue, b: &SortValue) -> Ordering
    ensures { result ≡ value_order a.now b.now }
{
    match (a, b) {
        (SortValue::Moment(a), SortValue::Moment(b)) => a.nanoseconds().cmp(&b.nanoseconds()),
        (SortValue::Number(a), SortValue::Number(b)) => a.compare(b),
        (SortValue::Text(a), SortValue::Text(b)) => a.cmp(b),
        _ => rank(a).cmp(&rank(b)),
    }
}

/// Which of two values comes first in the direction of a key; none is absent.
fn compare_by(down: bool, a: Option<&SortValue>, b: Option<&SortValue>) -> Ordering
    ensures { result ≡ order_by down (option_copied a.entry) (option_copied b.entry) }
{
    match (a, b) {
        (None, None) => Ordering::Equal,
        (None, Some(_)) => Ordering::Greater,
        (Some(_), None) => Ordering::Less,
        (Some(a), Some(b)) if down => compare_values(b, a),
        (Some(a), Some(b)) => compare_values(a, b),
    }
}

/// The first value, where it is there and not absent.
fn first_there(values: &[SortValue]) -> Option<&SortValue>
    ensures { option_copied result ≡ first_there values.now }
{
    match values.first() {
        None | Some(SortValue::Absent) => None,
        Some(value) => Some(value),
    }
}

/// The values behind the first.
fn others(values: &[SortValue]) -> &[SortValue]
    ensures { result.now ≡ others values.now }
{
    match values.split_first() {
        Some((_, others)) => others,
        None => &[],
    }
}

/// Compares the values of the keys in turn.
#[tactic(auto, unfolding(crate::specs::Order::values_order))]
fn compare_in_turn(keys: &[Key], a: &[SortValue], b: &[SortValue]) -> Ordering
    ensures { result ≡ values_order keys.now a.now b.now }
{
    let Some((key, keys)) = keys.split_first() else {
        return Ordering::Equal;
    };
    match compare_by(key.down, first_there(a), first_there(b)) {
        Ordering::Equal => compare_in_turn(keys, others(a), others(b)),
        decided => decided,
    }
}

/// Compares the collections, and in one collection the ids.
fn compare_names(a: &KeyList, b: &KeyList) -> Ordering
    ensures { result ≡ ordering_then (text_order a.now.collection b.now.collection) (text_order a.now.id b.now.id) }
{
    match a.collection().cmp(b.collection()) {
        Ordering::Equal => a.id().cmp(b.id()),
        decided => decided,
    }
}

/// Which of two key lists comes first under the sort, for lists with a value for each of its keys: the keys count in
/// turn, then the collection and then the id, both ascending by their bytes. Values in ascending order are moments,
/// numbers, texts by their bytes, false and true; a key that is down turns that round. What is absent comes last in
/// both directions, and so does a value that isn't there. Takes no memory.
///
/// The order is total: see [`order_is_total`](crate::laws::order_is_total).
pub fn compare_keys(sort: &SortSpec, a: &KeyList, b: &KeyList) -> Ordering
    ensures { result ≡ keys_order sort.now a.now b.now }
{
    match compare_in_turn(sort.keys(), a.values(), b.values()) {
        Ordering::Equal => compare_names(a, b),
        decided => decided,
    }
}
