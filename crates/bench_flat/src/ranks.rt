//! What the plain loop looks at: a number of each item that is wanted, and its id.
use sc_base::Text;
use sc_eval::{Value, value_of};
use sc_item::Item;
use sc_sort::Instant;

const DEGREE: i64 = 10_000_000;

/// The first and the last nanosecond of June of 2021.
const FROM: i128 = 1_622_505_600_000_000_000;

const TO: i128 = 1_625_097_599_000_000_000;

/// Which items are wanted, and in which order.
#[derive(Clone, Copy, Debug, PartialEq, Eq)]
pub enum Wanted {
    Latest,
    BoxAndMonth,
    LeastCover,
}

/// What items are ordered by, the least first, and their ids.
pub type Rank<'a> = (i128, &'a str);

/// The later the less.
pub fn lateness_of(at: Instant) -> i128 {
    0i128.wrapping_sub(at.nanoseconds())
}

fn cover_of(item: &Item, name: &Text) -> i128 {
    match value_of(name, item) {
        Value::Number(number) => number.to_grid().unwrap_or(i64::MAX) as i128,
        _ => i128::MAX,
    }
}

fn lies_in(item: &Item) -> bool {
    match item.place() {
        None => false,
        Some(place) => {
            place.west() <= 60 * DEGREE
                && place.east() >= 0
                && place.south() <= 60 * DEGREE
                && place.north() >= 0
        }
    }
}

fn is_of_month(item: &Item) -> bool {
    item.start().nanoseconds() <= TO && item.end().nanoseconds() >= FROM
}

/// The rank of an item; none where it isn't wanted.
pub fn rank_of<'a>(wanted: Wanted, cover: &Text, item: &'a Item) -> Option<Rank<'a>> {
    let rank = match wanted {
        Wanted::LeastCover => cover_of(item, cover),
        Wanted::BoxAndMonth if !(lies_in(item) && is_of_month(item)) => return None,
        _ => lateness_of(item.start()),
    };
    Some((rank, item.id().as_str()))
}
