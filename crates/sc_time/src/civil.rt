//! Instants as dates and times of day in UTC.
ghost use Rattle.std.specs.Prelude.{◌≡◌, ℕ, pos, ◌≤ℤ◌, unsigned_abs};
ghost use Rattle.jiff_core.specs.Calendar.{IsBetween};
ghost use Rattle.jiff_core.specs.DateTime.{civil_nanos};
ghost use Rattle.sc_time.specs.Instant.{IsInstant, IsInYear, IsInMonth, month_key};
ghost use Rattle.sc_time.specs.Written.{IsFormOf};

use crate::form::{ClockFields, DateFields, DateTimeFields, OffsetFields};
use crate::instant::Instant;
use jiff_core::civil::DateTime;

/// The date and time of day in UTC.
fn date_time_at(at: Instant) -> DateTime
    ensures instant { civil_nanos result ≡ at }
    ensures range { IsInstant at }
    ensures year { pos 0 ≤ℤ result.date.year }
{
    DateTime::from_nanosecond_in_range(at.nanoseconds())
}

/// The numbers of the date and time in UTC.
pub fn form_of(at: Instant) -> DateTimeFields
    ensures form { IsFormOf at result }
    ensures range { IsInstant at }
{
    let civil = date_time_at(at);
    DateTimeFields {
        date: DateFields {
            year: civil.date.year as u16,
            month: civil.date.month,
            day: civil.date.day,
        },
        clock: ClockFields {
            hour: civil.time.hour,
            minute: civil.time.minute,
            second: civil.time.second,
        },
        nanosecond: civil.time.subsec_nanosecond,
        offset: OffsetFields {
            west: false,
            hour: 0,
            minute: 0,
        },
    }
}

/// The year of UTC in which an instant lies, from 0 to 9999.
pub fn year_of(at: Instant) -> i32
    ensures year { IsInYear (unsigned_abs result) at }
    ensures range { IsBetween (pos 0) (pos 9999) result }
{
    form_of(at).date.year as i32
}

/// The month of UTC in which an instant lies, from 1 for January to 12.
pub fn month_of(at: Instant) -> i32
    ensures month { (year : ℕ) → IsInYear year at → IsInMonth (month_key year (unsigned_abs result)) at }
    ensures range { IsBetween (pos 1) (pos 12) result }
{
    form_of(at).date.month as i32
}
