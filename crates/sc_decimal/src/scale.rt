ghost use Rattle.std.specs.Prelude.{◌≡◌, ◌<◌, ◌≤◌, ◌+◌, ◌*◌, ◌^◌, ◌≤ℤ◌, pos};
ghost use Rattle.std.specs.Ordering.{nat_cmp};
ghost use Rattle.sc_decimal.specs.Number.{above, least_exponent};

use std::cmp::Ordering;

/// The least exponent.
const LEAST_EXPONENT: i32 = -6000;

/// How far an exponent lies above another.
pub(crate) fn above(high: i32, low: i32) -> u32
    requires order { low ≤ℤ high }
    ensures value { result ≡ above high low }
    ensures small { high ≤ℤ pos 6000 → least_exponent ≤ℤ low → result ≤ 12000 }
{
    high.abs_diff(low)
}

/// Compares `a * 10^i` and `b * 10^j`, the numbers of digits first.
pub(crate) fn compare_scaled(a: u128, i: u32, b: u128, j: u32) -> Ordering
    requires a_digits { a < 10 ^ 34 }
    requires b_digits { b < 10 ^ 34 }
    requires a_scale { i ≤ 12000 }
    requires b_scale { j ≤ 12000 }
    ensures { result ≡ nat_cmp (a * 10 ^ i) (b * 10 ^ j) }
{
    if a == 0 || b == 0 {
        return a.cmp(&b);
    }
    let a_digits = a.ilog10();
    let b_digits = b.ilog10();
    if a_digits + i < b_digits + j {
        return Ordering::Less;
    }
    if b_digits + j < a_digits + i {
        return Ordering::Greater;
    }
    if i >= j {
        (a * 10u128.pow(i - j)).cmp(&b)
    } else {
        a.cmp(&(b * 10u128.pow(j - i)))
    }
}

/// Compares `a * 10^i` and `b * 10^j`, with exponents from -6000 to 6000.
pub(crate) fn compare_magnitudes(a: u128, i: i32, b: u128, j: i32) -> Ordering
    requires a_digits { a < 10 ^ 34 }
    requires b_digits { b < 10 ^ 34 }
    requires a_low { least_exponent ≤ℤ i }
    requires a_high { i ≤ℤ pos 6000 }
    requires b_low { least_exponent ≤ℤ j }
    requires b_high { j ≤ℤ pos 6000 }
    ensures { result ≡ nat_cmp (a * 10 ^ above i least_exponent) (b * 10 ^ above j least_exponent) }
{
    compare_scaled(a, above(i, LEAST_EXPONENT), b, above(j, LEAST_EXPONENT))
}
