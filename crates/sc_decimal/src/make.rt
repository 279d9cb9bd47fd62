ghost use Rattle.std.specs.Prelude.{◌≡◌, ◌≢◌, ◌<◌, ◌≤◌, ◌*◌, ◌%◌, ◌^◌};
ghost use Rattle.sc_decimal.specs.Number.{IsKept, integer};

use crate::number::Dec;
use crate::reading::with_exponent;

/// The digits without the zeros at their end, and how many those were.
fn trimmed(m: u128) -> (u128, u32)
    requires { 0 < m }
    ensures same { result.0 * 10 ^ result.1 ≡ m }
    ensures last { result.0 % 10 ≢ 0 }
    ensures few { result.1 ≤ 38 }
{
    let mut rest = m;
    let mut zeros = 0;
    while rest % 10 == 0 {
        rest /= 10;
        zeros += 1;
    }
    (rest, zeros)
}

/// The number of a sign, digits and an exponent, where it is kept.
pub(crate) fn of_parts(neg: bool, m: u128, e: i32) -> Option<Dec>
    ensures { IsKept (record { neg = neg; m = m; e = e }) result }
{
    if m == 0 {
        return Some(Dec::new(false, 0, 0));
    }
    let (digits, zeros) = trimmed(m);
    if digits >= 10_000_000_000_000_000_000_000_000_000_000_000 {
        return None;
    }
    match with_exponent(neg, digits, e as i128 + zeros as i128) {
        Ok(dec) => Some(dec),
        Err(_) => None,
    }
}

/// A whole number, where it is kept.
pub(crate) fn of_integer(number: i128) -> Option<Dec>
    ensures { IsKept (integer number) result }
{
    of_parts(number < 0, number.unsigned_abs(), 0)
}
