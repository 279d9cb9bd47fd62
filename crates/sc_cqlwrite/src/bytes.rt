//! What stands in a token: signs, bytes in quotes, and the digits of numbers. Where memory runs out, these functions may have
//! added a part.
ghost use Rattle.std.specs.Prelude.{◌≡◌, ◌++◌, ◌∷◌, [], ◌<◌, ◌≤◌, ◌^◌, OnOk, string_bytes, take, true, length, slice_index};
ghost use Rattle.std.specs.List.{list_all};
ghost use Rattle.sc_decimal.specs.Literal.{literal_of};
ghost use Rattle.sc_cqlwrite.specs.Tokens.{sign_of, is_other, quoted};
ghost use Rattle.sc_cqlwrite.specs.Coordinate.{places, fraction_text, coordinate_text};

use itoa::Buffer;
use sc_decimal::Dec;
use sc_expr::CompOp;
use std::alloc::AllocError;

/// The steps of the grid in a degree.
const DEGREE: u64 = 10_000_000;

/// The decimal places of a step.
const PLACES: u32 = 7;

/// The sign of a comparison.
pub(crate) fn sign_of(op: CompOp) -> &'static str
    ensures { result.now ≡ sign_of op }
{
    match op {
        CompOp::Eq => "=",
        CompOp::Ne => "<>",
        CompOp::Lt => "<",
        CompOp::Gt => ">",
        CompOp::Le => "<=",
        CompOp::Ge => ">=",
    }
}

/// How many bytes come before the first quote.
fn plain_len(quote: u8, bytes: &[u8]) -> usize
    ensures within { result ≤ length bytes.now }
    ensures plain { list_all (is_other quote) (take result bytes.now) ≡ true }
    ensures ends { result < length bytes.now → slice_index bytes.now result ≡ quote }
{
    for (i, byte) in bytes.iter().enumerate() {
        if *byte == quote {
            return i;
        }
    }
    bytes.len()
}

/// Adds a mark and a quote.
fn push_marked(out: &mut String, mark: u8, quote: u8) -> Result<(), AllocError>
    requires mark { mark < 128 }
    requires quote { quote < 128 }
    ensures { OnOk result (string_bytes out.new ≡ string_bytes out.old ++ mark ∷ quote ∷ []) }
{
    out.push(mark as char)?;
    out.push(quote as char)
}

/// Adds a text between quotes, with a mark before each quote within.
pub(crate) fn push_quoted(
    out: &mut String,
    mark: u8,
    quote: u8,
    text: &str,
) -> Result<(), AllocError>
    requires mark { mark < 128 }
    requires quote { quote < 128 }
    ensures { OnOk result (string_bytes out.new ≡ string_bytes out.old ++ quoted mark quote text.now) }
{
    out.push(quote as char)?;
    let mut rest = text;
    'texts: loop {
        let plain = plain_len(quote, rest.as_bytes());
        out.push_str(&rest[..plain])?;
        if plain == rest.len() {
            break 'texts;
        }
        push_marked(out, mark, quote)?;
        rest = &rest[plain + 1..];
    }
    out.push(quote as char)?;
    Ok(())
}

/// Adds the canonical literal of a number.
#[tactic(auto, unfolding(sc_decimal::specs::Literal::literal_of))]
pub(crate) fn push_literal(out: &mut String, number: &Dec) -> Result<(), AllocError>
    ensures { OnOk result (string_bytes out.new ≡ string_bytes out.old ++ literal_of number.now) }
{
    let mut buffer = Buffer::new();
    if number.neg() {
        out.push('-')?;
    }
    out.push_str(buffer.format(number.m()))?;
    if number.e() != 0 {
        out.push('E')?;
        out.push_str(buffer.format(number.e()))?;
    }
    Ok(())
}

/// Adds the digits of a rest of so many places, until nothing is left.
#[tactic(auto, using(crate::proofs::Places::unit_some, crate::proofs::Places::some_places, crate::proofs::Places::digit_small, crate::proofs::Places::rest_small, crate::proofs::Places::places_more))]
fn push_places(out: &mut String, count: u32, rest: u64) -> Result<(), AllocError>
    requires few { count ≤ 7 }
    requires within { rest < 10 ^ count }
    ensures { OnOk result (string_bytes out.new ≡ string_bytes out.old ++ places count rest) }
{
    if rest == 0 {
        return Ok(());
    }
    let unit = 10u64.pow(count - 1);
    out.push((b'0' + (rest / unit) as u8) as char)?;
    push_places(out, count - 1, rest % unit)
}

fn push_fraction(out: &mut String, rest: u64) -> Result<(), AllocError>
    requires { rest < 10_000_000 }
    ensures { OnOk result (string_bytes out.new ≡ string_bytes out.old ++ fraction_text rest) }
{
    if rest == 0 {
        return Ok(());
    }
    out.push('.')?;
    push_places(out, PLACES, rest)
}

/// Adds a coordinate as a decimal text of degrees.
#[tactic(auto, unfolding(crate::specs::Coordinate::coordinate_text))]
pub(crate) fn push_coordinate(out: &mut String, steps: i64) -> Result<(), AllocError>
    ensures { OnOk result (string_bytes out.new ≡ string_bytes out.old ++ coordinate_text steps) }
{
    let mut buffer = Buffer::new();
    if steps < 0 {
        out.push('-')?;
    }
    let size = steps.unsigned_abs();
    out.push_str(buffer.format(size / DEGREE))?;
    push_fraction(out, size % DEGREE)
}
