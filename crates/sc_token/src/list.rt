//! Key lists as compact JSON lists.
ghost use Rattle.std.specs.Prelude.{◌≡◌, ◌++◌, ◌∷◌, [], IfOk, OnOk, string_bytes};
ghost use Rattle.std.specs.List.{flat_map};
ghost use Rattle.std.specs.Fmt.{signed_decimal};
ghost use Rattle.sc_decimal.specs.Literal.{literal_of};
ghost use Rattle.sc_json.specs.Compact.{compact};
ghost use Rattle.sc_sort.specs.Keys.{AreKept};
ghost use Rattle.sc_token.specs.Token.{tree_of, list_text};

use itoa::Buffer;
use sc_json::push_quoted;
use sc_sort::{Dec, Instant, KeyList, SortValue};
use std::alloc::{AllocError, Global};

/// Room for the token of a moment, a collection and an id of usual length.
const ROOM: usize = 128;

/// Adds the nanoseconds of a moment.
fn push_moment(out: &mut String, at: Instant) -> Result<(), AllocError>
    ensures { OnOk result (string_bytes out.new ≡ string_bytes out.old ++ signed_decimal at) }
{
    let mut buffer = Buffer::new();
    out.push_str(buffer.format(at.nanoseconds()))
}

/// Adds the canonical literal of a number.
#[tactic(auto, unfolding(sc_decimal::specs::Literal::literal_of))]
fn push_number(out: &mut String, number: &Dec) -> Result<(), AllocError>
    ensures { OnOk result (string_bytes out.new ≡ string_bytes out.old ++ literal_of number.now) }
{
    let mut buffer = Buffer::new();
    if number.neg() {
        out.push('-')?;
    }
    out.push_str(buffer.format(number.m()))?;
    if number.e() != 0 {
        out.push('E')?;
        out.push_str(buffer.format(number.e()))?;
    }
    Ok(())
}

/// Adds the compact JSON of a value.
#[tactic(auto, unfolding(sc_json::specs::Compact::compact))]
fn push_value(out: &mut String, value: &SortValue) -> Result<(), AllocError>
    ensures { OnOk result (string_bytes out.new ≡ string_bytes out.old ++ compact (tree_of value.now)) }
{
    match value {
        SortValue::Moment(at) => push_moment(out, *at),
        SortValue::Number(number) => push_number(out, number),
        SortValue::Text(text) => push_quoted(out, text.as_str()),
        SortValue::Truth(true) => out.push_str("true"),
        SortValue::Truth(false) => out.push_str("false"),
        SortValue::Absent => out.push_str("null"),
    }
}

/// Adds the compact JSON of each value and a comma behind it.
fn push_values(out: &mut String, values: &[SortValue]) -> Result<(), AllocError>
    ensures { OnOk result (string_bytes out.new ≡ string_bytes out.old ++ flat_map (λ v. compact (tree_of v) ++ 44 ∷ []) values.now) }
{
    for value in values {
        push_value(out, value)?;
        out.push(',')?;
    }
    Ok(())
}

/// The compact JSON list of a key list.
pub(crate) fn list_text(alloc: Global, key: &KeyList) -> Result<String, AllocError>
    ensures text { IfOk result (λ text. string_bytes text ≡ list_text key.now) }
    ensures kept { IfOk result (λ text. AreKept key.now) }
{
    let mut out = String::with_capacity(alloc, ROOM)?;
    out.push('[')?;
    push_values(&mut out, key.values())?;
    push_quoted(&mut out, key.collection().as_str())?;
    out.push(',')?;
    push_quoted(&mut out, key.id().as_str())?;
    out.push(']')?;
    Ok(out)
}
