//! The yardstick: the same searches as plain loops over arrays of the items' values.
use sc_base::Text;
use sc_eval::{Value, value_of};
use sc_item::Item;
use std::alloc::{AllocError, Global};

const DEGREE: i64 = 10_000_000;

/// The first and the last nanosecond of June of 2020.
const FROM: i128 = 1_590_969_600_000_000_000;

const TO: i128 = 1_593_561_599_000_000_000;

/// The items' values, each in an array of its own.
#[derive(Drop)]
pub struct Values {
    times: Vec<(i128, i128)>,
    /// West, south, east and north, in steps of the grid.
    places: Vec<(i64, i64, i64, i64)>,
    /// In ten millionths.
    covers: Vec<i64>,
    platforms: Vec<String>,
}

fn place_of(item: &Item) -> (i64, i64, i64, i64) {
    match item.place() {
        None => (i64::MAX, i64::MAX, i64::MIN, i64::MIN),
        Some(sides) => (sides.west(), sides.south(), sides.east(), sides.north()),
    }
}

fn cover_of(item: &Item, name: &Text) -> i64 {
    match value_of(name, item) {
        Value::Number(number) => number.to_grid().unwrap_or(i64::MAX),
        _ => i64::MAX,
    }
}

fn platform_of(alloc: Global, item: &Item, name: &Text) -> Result<String, AllocError> {
    match value_of(name, item) {
        Value::Text(text) => String::from_str(alloc, text.as_str()),
        _ => Ok(String::new(alloc)),
    }
}

impl Values {
    pub fn of(alloc: Global, items: &[Item]) -> Result<Values, AllocError> {
        let cover = Text::from_str(alloc, "eo:cloud_cover")?;
        let platform = Text::from_str(alloc, "platform")?;
        let mut values = Values {
            times: Vec::with_capacity(alloc, items.len())?,
            places: Vec::with_capacity(alloc, items.len())?,
            covers: Vec::with_capacity(alloc, items.len())?,
            platforms: Vec::with_capacity(alloc, items.len())?,
        };
        for item in items {
            let time = (item.start().nanoseconds(), item.end().nanoseconds());
            values.times.push(time)?;
            values.places.push(place_of(item))?;
            values.covers.push(cover_of(item, &cover))?;
            values.platforms.push(platform_of(alloc, item, &platform)?)?;
        }
        Ok(values)
    }
}

fn lies_in(place: (i64, i64, i64, i64)) -> bool {
    let (west, south, east, north) = place;
    west <= 20 * DEGREE && east >= 0 && south <= 60 * DEGREE && north >= 40 * DEGREE
}

fn count_by_place(values: &Values) -> u64 {
    let mut count: u64 = 0;
    for (time, place) in values.times.iter().zip(values.places.as_slice()) {
        let (start, end) = *time;
        if start <= TO && end >= FROM && lies_in(*place) {
            count = count.wrapping_add(1);
        }
    }
    count
}

fn count_by_comparisons(values: &Values) -> u64 {
    let mut count: u64 = 0;
    for (cover, platform) in values.covers.iter().zip(values.platforms.as_slice()) {
        if *cover < 20 * DEGREE && platform.as_str() == "sentinel-2a" {
            count = count.wrapping_add(1);
        }
    }
    count
}

fn count_by_pattern(values: &Values) -> u64 {
    let mut count: u64 = 0;
    for platform in values.platforms.as_slice() {
        let bytes = platform.as_str().as_bytes();
        if bytes.windows(5).any(|part| part == b"nel-2".as_slice()) {
            count = count.wrapping_add(1);
        }
    }
    count
}

fn count_by_folded_pattern(values: &Values) -> u64 {
    let mut count: u64 = 0;
    for platform in values.platforms.as_slice() {
        let bytes = platform.as_str().as_bytes();
        if bytes
            .windows(5)
            .any(|part| part.eq_ignore_ascii_case(b"NEL-2"))
        {
            count = count.wrapping_add(1);
        }
    }
    count
}

/// How many items the search at a place among the searches selects.
pub fn count_plainly(place: usize, values: &Values) -> u64 {
    match place {
        0 => count_by_place(values),
        1 => count_by_comparisons(values),
        2 => count_by_pattern(values),
        _ => count_by_folded_pattern(values),
    }
}
