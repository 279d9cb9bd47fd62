ghost use Rattle.std.specs.Prelude.{◌≡◌, ◌↔◌, ◌+◌, ◌≤◌, ◌-ℤ◌, ℤ, pos, Some};
ghost use Rattle.sc_time.specs.Ends.{Ends};
ghost use Rattle.sc_time.specs.Instant.{IsInstant, month_start};
ghost use Rattle.sc_cut.specs.Key.{HasKey, IsKey};
ghost use Rattle.sc_cut.specs.Span.{LiesIn, span};

use crate::calendar::{LAST_MONTH, first_of_month, last_of_month};
use crate::cut::Cut;
use crate::name::PartName;
use sc_time::{Instant, Range};

/// The range from the beginning of a month to the end of the same or a later one.
fn range_of_months(first: u32, last: u32) -> Range
    requires order { first ≤ last }
    requires range { last ≤ LAST_MONTH }
    ensures { result ≡ record { from = Some (month_start first); to = Some (month_start (last + 1) -ℤ pos 1) } }
{
    let from = Instant::of(first_of_month(first));
    let to = Instant::of(last_of_month(last));
    match Range::of(from, to) {
        Some(range) => range,
        None => unreachable!(),
    }
}

/// The range of the starts that have the name's key, from its first nanosecond to its last. Both ends are there, also
/// where the collection isn't cut: these are the first and the last nanosecond of the years 0000 to 9999. Takes no
/// memory.
pub fn span_of(name: &PartName) -> Range
    requires { IsKey name.now.cut name.now.key }
    ensures span { result ≡ span name.now.cut name.now.key }
    ensures starts { (start : ℤ) → IsInstant start → HasKey name.now.cut name.now.key start ↔ LiesIn result start }
{
    match name.cut {
        Cut::Whole => range_of_months(0, LAST_MONTH),
        Cut::Year => {
            let first = 12 * (name.key as u32);
            range_of_months(first, first + 11)
        }
        Cut::Month => range_of_months(name.key as u32, name.key as u32),
    }
}
