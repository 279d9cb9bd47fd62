ghost use Rattle.std.specs.Prelude.{◌≡◌, if◌then◌else◌, int_le};
ghost use Rattle.sc_json.specs.Member.{member_value};
ghost use Rattle.sc_item.specs.Times.{stamp_of, stamp_of_value, is_given, times_of_pair, times_of, times_in};

use crate::trees::member;
use crate::words::{datetime_name, end_name, start_name};
use sc_json::Json;
use sc_time::{Instant, read_instant};

/// What a member tells of a time.
#[derive(Clone, Copy, Debug)]
pub(crate) enum Stamp {
    Missing,
    Null,
    At(Instant),
    /// Neither null nor an instant.
    Other,
}

/// The start and the end of an item.
#[derive(Clone, Copy, Debug)]
pub(crate) struct Times {
    pub start: Instant,
    pub end: Instant,
}

#[tactic(auto, unfolding(crate::specs::Times::stamp_of_value))]
fn stamp_of_value(value: &Json) -> Stamp
    ensures { result ≡ stamp_of_value value.now }
{
    match value {
        Json::Null => Stamp::Null,
        Json::Text(text) => match read_instant(text.bytes()) {
            Ok(at) => Stamp::At(at),
            Err(_) => Stamp::Other,
        },
        _ => Stamp::Other,
    }
}

fn stamp_of(properties: &Json, name: &str) -> Stamp
    ensures { result ≡ stamp_of (member_value properties.now name.now) }
{
    match member(properties, name) {
        Some(value) => stamp_of_value(value),
        None => Stamp::Missing,
    }
}

fn is_given(stamp: &Stamp) -> bool
    ensures { result ≡ is_given stamp.now }
{
    match stamp {
        Stamp::Missing => false,
        Stamp::Null => false,
        Stamp::At(_) => true,
        Stamp::Other => true,
    }
}

fn times_between(start: Instant, end: Instant) -> Option<Times>
    ensures { result ≡ (if int_le start end then Some (record { start = start; end = end }) else None) }
{
    if start.nanoseconds() <= end.nanoseconds() {
        Some(Times { start, end })
    } else {
        None
    }
}

fn times_of_pair(start: &Stamp, end: &Stamp) -> Option<Times>
    ensures { result ≡ times_of_pair start.now end.now }
{
    match start {
        Stamp::At(start) => match end {
            Stamp::At(end) => times_between(*start, *end),
            _ => None,
        },
        _ => None,
    }
}

#[tactic(auto, unfolding(crate::specs::Times::times_of))]
fn times_of(datetime: &Stamp, start: &Stamp, end: &Stamp) -> Option<Times>
    ensures { result ≡ times_of datetime.now start.now end.now }
{
    match datetime {
        Stamp::Missing => None,
        Stamp::Other => None,
        Stamp::Null => times_of_pair(start, end),
        Stamp::At(at) => {
            if is_given(start) && is_given(end) {
                times_of_pair(start, end)
            } else {
                Some(Times {
                    start: *at,
                    end: *at,
                })
            }
        }
    }
}

/// The time that the properties tell.
#[tactic(auto, unfolding(crate::specs::Times::times_in))]
pub(crate) fn times_in(properties: &Json) -> Option<Times>
    ensures { result ≡ times_in properties.now }
{
    let datetime = stamp_of(properties, datetime_name());
    let start = stamp_of(properties, start_name());
    let end = stamp_of(properties, end_name());
    times_of(&datetime, &start, &end)
}
