ghost use Rattle.std.specs.Prelude.{◌≡◌, ◌*◌, ◌+◌, ◌*ℤ◌, ◌+ℤ◌, ◌-ℤ◌, ◌&&◌, ◌==◌, ◌<◌, length, pos, Some, None, Ok, Err, IsTrue, IfSome, if◌then◌else◌};
ghost use Rattle.std.specs.List.{position};
ghost use Rattle.jiff_core.specs.Calendar.{IsWithin};
ghost use Rattle.sc_time.specs.Form.{FitDigits};
ghost use Rattle.sc_time.specs.Instant.{IsDayNumber, is_instant};
ghost use Rattle.sc_time.specs.Reading.{is_calendar_date, day_of_fields, is_clock_time, is_offset, seconds_of_clock, seconds_ahead, instant_reading, date_reading, end_reading, range_reading};

use crate::fault::TimeFault;
use crate::form::{self, ClockFields, DateFields, OffsetFields};
use crate::instant::Instant;
use crate::range::Range;
use jiff_core::civil::Date;

/// The day number of a date, if the calendar has it.
#[inline]
fn day_of(date: DateFields) -> Option<i32>
    requires { FitDigits date }
    ensures value { result ≡ (if is_calendar_date date then Some (day_of_fields date) else None) }
    ensures range { IfSome result IsDayNumber }
{
    match Date::new(date.year as i16, date.month as i8, date.day as i8) {
        Ok(day) => Some(day.to_unix_epoch_day()),
        Err(_) => None,
    }
}

/// Whether a time of day and an offset are in range.
#[inline]
fn is_time(clock: ClockFields, offset: OffsetFields) -> bool
    ensures { result ≡ (is_clock_time clock && is_offset offset) }
{
    clock.hour < 24
        && clock.minute < 60
        && clock.second < 60
        && offset.hour < 24
        && offset.minute < 60
}

/// Seconds since midnight.
#[inline]
fn seconds_of_clock_of(clock: ClockFields) -> u32
    ensures { result ≡ seconds_of_clock clock }
{
    clock.hour as u32 * 3_600 + clock.minute as u32 * 60 + clock.second as u32
}

/// How many seconds the clock is ahead of UTC.
#[inline]
fn seconds_ahead_of(offset: OffsetFields) -> i32
    ensures value { result ≡ seconds_ahead offset }
    ensures bound { IsWithin 1_000_000 result }
{
    let seconds = offset.hour as i32 * 3_600 + offset.minute as i32 * 60;
    if offset.west { -seconds } else { seconds }
}

/// Seconds from 1970-01-01T00:00:00Z.
#[inline]
fn seconds_of(day: i32, clock: ClockFields, offset: OffsetFields) -> i64
    ensures value { result ≡ day *ℤ pos 86_400 +ℤ pos (seconds_of_clock clock) -ℤ seconds_ahead offset }
    ensures bound { IsWithin 200_000_000_000_000 result }
{
    day as i64 * 86_400 + seconds_of_clock_of(clock) as i64 - seconds_ahead_of(offset) as i64
}

/// Reads a date-time of RFC 3339 §5.6 as an instant. Its `T` and `Z` may stand in either case, and there are 1 to
/// 9 digits behind a point. Takes no memory.
///
/// The first of these that holds is the fault: `BadForm` where the text isn't such a date-time; `BadDate` where
/// its month, day, hour, minute, second or offset is out of range (§5.7), second 60 and an offset beyond 23:59
/// too; `OutOfRange` where the instant lies outside the years 0000 to 9999 of UTC.
#[tactic(auto, unfolding(crate::specs::Reading::instant_reading))]
pub fn read_instant(text: &[u8]) -> Result<Instant, TimeFault>
    ensures { result ≡ instant_reading text.now }
{
    let Some(form) = form::date_time_of(text) else {
        return Err(TimeFault::BadForm);
    };
    let Some(day) = day_of(form.date) else {
        return Err(TimeFault::BadDate);
    };
    if !is_time(form.clock, form.offset) {
        return Err(TimeFault::BadDate);
    }
    instant_at(seconds_of(day, form.clock, form.offset), form.nanosecond)
}

/// The instant of whole seconds and a fraction.
#[inline]
fn instant_at(seconds: i64, nanosecond: u32) -> Result<Instant, TimeFault>
    requires { IsWithin 200_000_000_000_000 seconds }
    ensures { result ≡ (if is_instant (seconds *ℤ pos 1_000_000_000 +ℤ pos nanosecond) then Ok (seconds *ℤ pos 1_000_000_000 +ℤ pos nanosecond) else Err TimeFault.OutOfRange) }
{
    match Instant::of(seconds as i128 * 1_000_000_000 + nanosecond as i128) {
        Some(at) => Ok(at),
        None => Err(TimeFault::OutOfRange),
    }
}

/// Reads a `full-date` of RFC 3339 §5.6, `YYYY-MM-DD`, as its midnight in UTC. Takes no memory.
///
/// The first of these that holds is the fault: `BadForm` where the text isn't of that form; `BadDate` where the
/// calendar hasn't that date.
#[tactic(auto, unfolding(crate::specs::Reading::date_reading))]
pub fn read_date(text: &[u8]) -> Result<Instant, TimeFault>
    ensures { result ≡ date_reading text.now }
{
    let Some(date) = form::date_of(text) else {
        return Err(TimeFault::BadForm);
    };
    match day_of(date) {
        Some(day) => Ok(Instant::at_midnight(day)),
        None => Err(TimeFault::BadDate),
    }
}

/// The place of the first slash.
fn slash_in(text: &[u8]) -> Option<usize>
    ensures place { result ≡ position (λ byte. byte == 47) text.now }
    ensures within { IfSome result (λ place. place < length text.now) }
{
    text.iter().position(|byte| *byte == b'/')
}

/// One end of a range.
#[tactic(auto, unfolding(crate::specs::Reading::end_reading))]
fn end_of(text: &[u8]) -> Result<Option<Instant>, TimeFault>
    ensures { result ≡ end_reading text.now }
{
    match text {
        [] | [b'.', b'.'] => Ok(None),
        _ => match read_instant(text) {
            Ok(at) => Ok(Some(at)),
            Err(fault) => Err(fault),
        },
    }
}

/// Reads a range: one date-time as `read_instant` has it, which is both ends, or two with a `/` between them, where
/// `..` or nothing is an open end. Both ends may be open. Takes no memory.
///
/// The first of these is the fault: that of the left end, that of the right end (a second `/` makes it
/// `BadForm`), and `Backwards` where the left end is later than the right one. A text without a `/` that is empty or
/// `..` is `BadForm`.
#[tactic(auto, unfolding(crate::specs::Reading::range_reading))]
pub fn read_range(text: &[u8]) -> Result<Range, TimeFault>
    ensures { result ≡ range_reading text.now }
{
    let Some(slash) = slash_in(text) else {
        return match read_instant(text) {
            Ok(at) => Ok(Range::at(at)),
            Err(fault) => Err(fault),
        };
    };
    let (left, _) = text.split_at(slash);
    let (_, right) = text.split_at(slash + 1);
    let from = end_of(left)?;
    let to = end_of(right)?;
    match Range::of(from, to) {
        Some(range) => Ok(range),
        None => Err(TimeFault::Backwards),
    }
}
