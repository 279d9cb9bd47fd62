//! Steps of the grid as decimal texts of degrees.
#![tactic(auto)]

ghost use Rattle.std.specs.Prelude.{◌≡◌, ◌++◌, ◌<◌, ◌≤◌, ◌^◌, OnOk, string_bytes};
ghost use Rattle.sc_degrees.specs.Degrees.{places, fraction_text, degrees_text};

use itoa::Buffer;
use std::alloc::AllocError;

/// The steps of the grid in a degree.
const DEGREE: u64 = 10_000_000;

/// The decimal places of a step.
const PLACES: u32 = 7;

/// Adds the digits of a rest of so many places, until nothing is left.
#[tactic(auto, using(crate::proofs::Places::unit_some, crate::proofs::Places::some_places, crate::proofs::Places::digit_small, crate::proofs::Places::rest_small, crate::proofs::Places::places_more))]
fn push_places(out: &mut String, count: u32, rest: u64) -> Result<(), AllocError>
    requires few { count ≤ 7 }
    requires within { rest < 10 ^ count }
    ensures { OnOk result (string_bytes out.new ≡ string_bytes out.old ++ places count rest) }
{
    if rest == 0 {
        return Ok(());
    }
    let unit = 10u64.pow(count - 1);
    out.push((b'0' + (rest / unit) as u8) as char)?;
    push_places(out, count - 1, rest % unit)
}

fn push_fraction(out: &mut String, rest: u64) -> Result<(), AllocError>
    requires { rest < 10_000_000 }
    ensures { OnOk result (string_bytes out.new ≡ string_bytes out.old ++ fraction_text rest) }
{
    if rest == 0 {
        return Ok(());
    }
    out.push('.')?;
    push_places(out, PLACES, rest)
}

/// Adds a coordinate, which is given in steps of the grid of 10^-7 degree, as a decimal text of degrees: its sign where it is
/// negative, the whole degrees, and, where a rest is left, a point and its digits without zeros at the end. Where memory runs
/// out, a part may have been added.
#[tactic(auto, unfolding(crate::specs::Degrees::degrees_text))]
pub fn push_degrees(out: &mut String, steps: i64) -> Result<(), AllocError>
    ensures { OnOk result (string_bytes out.new ≡ string_bytes out.old ++ degrees_text steps) }
{
    let mut buffer = Buffer::new();
    if steps < 0 {
        out.push('-')?;
    }
    let size = steps.unsigned_abs();
    out.push_str(buffer.format(size / DEGREE))?;
    push_fraction(out, size % DEGREE)
}
