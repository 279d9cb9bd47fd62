ghost use Rattle.std.specs.Prelude.{◌≡◌, ◌↔◌, ℤ, IsTrue};
ghost use Rattle.sc_cut.specs.Key.{HasKey, IsKey};

use crate::cut::Cut;
use sc_time::{Instant, month_of, year_of};

/// The key of the part in which a start lies: 0 where the collection isn't cut, else the year of UTC, or
/// 12 times the year and the months before that of the start. The year is from 0 to 9999. Takes no memory.
pub fn key_of(cut: Cut, start: Instant) -> i32
    ensures key { HasKey cut result start }
    ensures only { (key : ℤ) → HasKey cut key start → key ≡ result }
    ensures range { IsKey cut result }
{
    match cut {
        Cut::Whole => 0,
        Cut::Year => year_of(start),
        Cut::Month => month_key_of(start),
    }
}

/// The number of the month of UTC in which a start lies.
fn month_key_of(start: Instant) -> i32
    ensures key { HasKey Cut.Month result start }
    ensures range { IsKey Cut.Month result }
{
    12 * year_of(start) + month_of(start) - 1
}

/// Whether some start has the key under the cut: 0 alone where the collection isn't cut, a year from 0 to 9999,
/// or the number of a month of these years, from 0 to 119,999.
pub fn is_key(cut: Cut, key: i32) -> bool
    ensures { IsTrue result ↔ IsKey cut key }
{
    match cut {
        Cut::Whole => key == 0,
        Cut::Year => 0 <= key && key <= 9_999,
        Cut::Month => 0 <= key && key <= 119_999,
    }
}
