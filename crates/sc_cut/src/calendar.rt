//! The ends of months as nanoseconds.
ghost use Rattle.std.specs.Prelude.{◌≡◌, ◌+◌, ◌≤◌, ◌-ℤ◌, pos};
ghost use Rattle.std.specs.Int.{IsInRange};
ghost use Rattle.sc_time.specs.Calendar.{day_number, days_of_month};
ghost use Rattle.sc_time.specs.Instant.{IsDayNumber, IsInstant, midnight, month_start};
ghost use Rattle.std.specs.Prelude.{min, ◌/◌, ◌%◌};

use jiff_core::civil::Date;

/// The number of the last month of the year 9999, January of the year 0 being 0.
pub const LAST_MONTH: u32 = 119_999;

const NANOSECONDS_OF_DAY: i128 = 86_400_000_000_000;

/// The day of a month that is given by its number, or its last where it has fewer days, as a day number.
fn day_in_month(month: u32, day: u8) -> i32
    requires month_in { month ≤ LAST_MONTH }
    requires day_in { IsInRange 1 31 day }
    ensures day { result ≡ day_number (month / 12) (month % 12 + 1) (min day (days_of_month (month / 12) (month % 12 + 1))) }
    ensures range { IsDayNumber result }
{
    Date::constrain((month / 12) as i16, (month % 12) as u8 + 1, day).to_unix_epoch_day()
}

/// The first nanosecond of a month.
pub fn first_of_month(month: u32) -> i128
    requires { month ≤ LAST_MONTH }
    ensures start { result ≡ month_start month }
    ensures range { IsInstant result }
{
    day_in_month(month, 1) as i128 * NANOSECONDS_OF_DAY
}

/// The last nanosecond of a month.
pub fn last_of_month(month: u32) -> i128
    requires { month ≤ LAST_MONTH }
    ensures end { result ≡ month_start (month + 1) -ℤ pos 1 }
    ensures range { IsInstant result }
{
    (day_in_month(month, 31) as i128 + 1) * NANOSECONDS_OF_DAY - 1
}
