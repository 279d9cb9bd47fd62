ghost use Rattle.std.specs.Prelude.{◌≡◌};
ghost use Rattle.std.specs.Ordering.{ordering_then};
ghost use Rattle.sc_base.specs.Text.{text_order};
ghost use Rattle.sc_sort.specs.Order.{rank, value_order, order_by, there, values_order, keys_order, first_there, others};
ghost use Rattle.sc_page.specs.ItemKey.{key_of, item_order, values_of};
ghost use Rattle.sc_page.specs.Lent.{lent_value};

use crate::lent::{LentValue, lent_by};
use sc_item::Item;
use sc_sort::{Key, KeyList, SortSpec, SortValue};
use std::cmp::Ordering;

/// The place of a value's kind in ascending order.
fn rank(value: &LentValue) -> u8
    ensures { result ≡ rank (lent_value value.now) }
{
    match value {
        LentValue::Moment(_) => 0,
        LentValue::Number(_) => 1,
        LentValue::Text(_) => 2,
        LentValue::Truth(false) => 3,
        LentValue::Truth(true) => 4,
        LentValue::Absent => 5,
    }
}

/// Which of two values comes first in ascending order.
fn compare_values(a: &LentValue, b: &LentValue) -> Ordering
    ensures { result ≡ value_order (lent_value a.now) (lent_value b.now) }
{
    match (a, b) {
        (LentValue::Moment(a), LentValue::Moment(b)) => a.nanoseconds().cmp(&b.nanoseconds()),
        (LentValue::Number(a), LentValue::Number(b)) => a.compare(b),
        (LentValue::Text(a), LentValue::Text(b)) => a.cmp(b),
        _ => rank(a).cmp(&rank(b)),
    }
}

/// Which of two values comes first in the direction of a key.
fn compare_by(down: bool, a: &LentValue, b: &LentValue) -> Ordering
    ensures { result ≡ order_by down (there (lent_value a.now)) (there (lent_value b.now)) }
{
    match (a, b) {
        (LentValue::Absent, LentValue::Absent) => Ordering::Equal,
        (LentValue::Absent, _) => Ordering::Greater,
        (_, LentValue::Absent) => Ordering::Less,
        _ if down => compare_values(b, a),
        _ => compare_values(a, b),
    }
}

/// Compares what two items have under each key in turn.
#[tactic(auto, unfolding(sc_sort::specs::Order::values_order))]
fn compare_in_turn(keys: &[Key], a: &Item, b: &Item) -> Ordering
    ensures { result ≡ values_order keys.now (values_of keys.now a.now) (values_of keys.now b.now) }
{
    let Some((key, keys)) = keys.split_first() else {
        return Ordering::Equal;
    };
    match compare_by(key.down, &lent_by(a, &key.name), &lent_by(b, &key.name)) {
        Ordering::Equal => compare_in_turn(keys, a, b),
        decided => decided,
    }
}

/// Compares the collections of two items, and in one collection the ids.
fn compare_names(a: &Item, b: &Item) -> Ordering
    ensures { result ≡ ordering_then (text_order a.now.collection b.now.collection) (text_order a.now.id b.now.id) }
{
    match a.collection().cmp(b.collection()) {
        Ordering::Equal => a.id().cmp(b.id()),
        decided => decided,
    }
}

/// Which of two items comes first under a sort. Takes no memory.
pub fn compare_items(sort: &SortSpec, a: &Item, b: &Item) -> Ordering
    ensures { result ≡ item_order sort.now a.now b.now }
{
    match compare_in_turn(sort.keys(), a, b) {
        Ordering::Equal => compare_names(a, b),
        decided => decided,
    }
}

/// What a value of a key list counts as; one that isn't there is absent.
fn lend_first(values: &[SortValue]) -> LentValue<'_>
    ensures { there (lent_value result) ≡ first_there values.now }
{
    match values.first() {
        None => LentValue::Absent,
        Some(SortValue::Moment(at)) => LentValue::Moment(*at),
        Some(SortValue::Number(number)) => LentValue::Number(*number),
        Some(SortValue::Text(text)) => LentValue::Text(text.as_str()),
        Some(SortValue::Truth(truth)) => LentValue::Truth(*truth),
        Some(SortValue::Absent) => LentValue::Absent,
    }
}

/// The values behind the first.
fn others(values: &[SortValue]) -> &[SortValue]
    ensures { result.now ≡ others values.now }
{
    match values.split_first() {
        Some((_, others)) => others,
        None => &[],
    }
}

/// Compares what an item has under each key with the values of a key list in turn.
#[tactic(auto, unfolding(sc_sort::specs::Order::values_order))]
fn compare_with_values(keys: &[Key], item: &Item, values: &[SortValue]) -> Ordering
    ensures { result ≡ values_order keys.now (values_of keys.now item.now) values.now }
{
    let Some((key, keys)) = keys.split_first() else {
        return Ordering::Equal;
    };
    match compare_by(key.down, &lent_by(item, &key.name), &lend_first(values)) {
        Ordering::Equal => compare_with_values(keys, item, others(values)),
        decided => decided,
    }
}

/// Compares the collection of an item with that of a key list, and in one collection the ids.
fn compare_with_name(item: &Item, key: &KeyList) -> Ordering
    ensures { result ≡ ordering_then (text_order item.now.collection key.now.collection) (text_order item.now.id key.now.id) }
{
    match item.collection().cmp(key.collection()) {
        Ordering::Equal => item.id().cmp(key.id()),
        decided => decided,
    }
}

/// Whether an item comes before a key list under a sort, after it, or is tied with it. Takes no memory.
pub fn compare_with_key(sort: &SortSpec, item: &Item, key: &KeyList) -> Ordering
    ensures { result ≡ keys_order sort.now (key_of sort.now item.now) key.now }
{
    match compare_with_values(sort.keys(), item, key.values()) {
        Ordering::Equal => compare_with_name(item, key),
        decided => decided,
    }
}
