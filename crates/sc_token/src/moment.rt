//! Moments as the decimal text of their nanoseconds.
ghost use Rattle.std.specs.Prelude.{◌≡◌, ◌≤◌, ◌^◌, ◌≤ℤ◌, ℕ, ℤ, pos, Some, IfSome};
ghost use Rattle.std.specs.Fmt.{decimal, signed_decimal};
ghost use Rattle.sc_time.specs.Instant.{IsInstant};

use sc_sort::Instant;

/// No instant has more nanoseconds than this, before 1970 or after.
const MOST: u128 = 1_000_000_000_000_000_000_000;

/// The number that decimal digits are, where an instant may have as many nanoseconds.
fn size_of(digits: &str) -> Option<i128>
    ensures size { (n : ℕ) → n ≤ 10 ^ 21 → digits.now ≡ decimal n → result ≡ Some (pos n) }
    ensures most { IfSome result (λ size. size ≤ℤ pos (10 ^ 21)) }
    ensures least { IfSome result (λ size. pos 0 ≤ℤ size) }
{
    match digits.parse::<u128>() {
        Ok(size) if size <= MOST => Some(size as i128),
        _ => None,
    }
}

/// The whole number of a decimal text, where it may be the nanoseconds of an instant.
fn nanoseconds_of(text: &str) -> Option<i128>
    ensures { (at : ℤ) → IsInstant at → text.now ≡ signed_decimal at → result ≡ Some at }
{
    match text.strip_prefix('-') {
        Some(digits) => match size_of(digits) {
            Some(size) => Some(-size),
            None => None,
        },
        None => size_of(text),
    }
}

/// The instant of which a decimal text has the nanoseconds.
pub(crate) fn instant_of(text: &str) -> Option<Instant>
    ensures { (at : ℤ) → IsInstant at → text.now ≡ signed_decimal at → result ≡ Some at }
{
    match nanoseconds_of(text) {
        Some(nanoseconds) => Instant::of(nanoseconds),
        None => None,
    }
}
