//! Numbers and coordinates by their literals. Where memory runs out, those that add to a text may have added a part.
ghost use Rattle.std.specs.Prelude.{◌≡◌, ◌++◌, ◌<◌, ◌≤◌, ◌≤ℤ◌, ◌^◌, pos, neg_ℤ, IfOk, OnOk, string_bytes};
ghost use Rattle.sc_decimal.specs.Literal.{literal_of};
ghost use Rattle.sc_json.specs.declared.tree.Json.TheVariants as trees;
ghost use Rattle.sc_cqlwrite.specs.Coordinate.{places, fraction_text, coordinate_text};
ghost use Rattle.sc_cqltree.specs.Geometries.{coordinate_tree};

use itoa::Buffer;
use sc_base::Text;
use sc_decimal::Dec;
use sc_json::{Json, Num};
use std::alloc::{AllocError, Global};

/// The steps of the grid in a degree.
const DEGREE: u64 = 10_000_000;

/// The decimal places of a step.
const PLACES: u32 = 7;

/// The canonical literal of a number.
fn literal_text(alloc: Global, number: &Dec) -> Result<Text, AllocError>
    ensures { IfOk result (λ text. text ≡ literal_of number.now) }
{
    let mut bytes = Vec::new(alloc);
    number.push_literal(&mut bytes)?;
    match Text::of_vec(bytes) {
        Some(text) => Ok(text),
        None => unreachable!(),
    }
}

/// A number, as its canonical literal.
pub(crate) fn number_tree(alloc: Global, number: &Dec) -> Result<Json, AllocError>
    ensures { IfOk result (λ tree. tree ≡ trees.Number (record { literal = literal_of number.now; dec = number.now })) }
{
    let literal = literal_text(alloc, number)?;
    Ok(Json::Number(Num {
        literal,
        dec: *number,
    }))
}

/// Adds the digits of a rest of so many places, until nothing is left.
#[tactic(auto, using(sc_cqlwrite::proofs::Places::unit_some, sc_cqlwrite::proofs::Places::some_places, sc_cqlwrite::proofs::Places::digit_small, sc_cqlwrite::proofs::Places::rest_small, sc_cqlwrite::proofs::Places::places_more))]
fn push_places(out: &mut String, count: u32, rest: u64) -> Result<(), AllocError>
    requires few { count ≤ 7 }
    requires within { rest < 10 ^ count }
    ensures { OnOk result (string_bytes out.new ≡ string_bytes out.old ++ places count rest) }
{
    if rest == 0 {
        return Ok(());
    }
    let unit = 10u64.pow(count - 1);
    out.push((b'0' + (rest / unit) as u8) as char)?;
    push_places(out, count - 1, rest % unit)
}

fn push_fraction(out: &mut String, rest: u64) -> Result<(), AllocError>
    requires { rest < 10_000_000 }
    ensures { OnOk result (string_bytes out.new ≡ string_bytes out.old ++ fraction_text rest) }
{
    if rest == 0 {
        return Ok(());
    }
    out.push('.')?;
    push_places(out, PLACES, rest)
}

/// The decimal text of a coordinate, in degrees.
#[tactic(auto, unfolding(sc_cqlwrite::specs::Coordinate::coordinate_text))]
fn coordinate_text(alloc: Global, steps: i64) -> Result<Text, AllocError>
    ensures { IfOk result (λ text. text ≡ coordinate_text steps) }
{
    let mut buffer = Buffer::new();
    let mut text = String::new(alloc);
    if steps < 0 {
        text.push('-')?;
    }
    let size = steps.unsigned_abs();
    text.push_str(buffer.format(size / DEGREE))?;
    push_fraction(&mut text, size % DEGREE)?;
    Ok(Text::from_string(text))
}

/// A coordinate that lies on the grid, in degrees.
pub(crate) fn coordinate_tree(alloc: Global, steps: i64) -> Result<Json, AllocError>
    requires low { neg_ℤ (pos 3_600_000_000) ≤ℤ steps }
    requires high { steps ≤ℤ pos 3_600_000_000 }
    ensures { IfOk result (λ tree. tree ≡ coordinate_tree steps) }
{
    let literal = coordinate_text(alloc, steps)?;
    match Dec::read(literal.bytes()) {
        Ok(dec) => Ok(Json::Number(Num { literal, dec })),
        Err(_) => unreachable!(),
    }
}
