ghost use Rattle.std.specs.Prelude.{◌≡◌, ℕ, ◌≤◌, ◌*◌, ◌^◌, min, Option, Some, None, IfOk, if◌then◌else◌};
ghost use Rattle.std.specs.List.{list_all};
ghost use Rattle.std.specs.Char.{is_ascii_digit};
ghost use Rattle.std.specs.Option.{option_map};
ghost use Rattle.std.specs.Str.Parse.{digits_value};
ghost use Rattle.sc_query.specs.Words as words;
ghost use Rattle.sc_query.specs.Limit.{count_in_text, whole_of, count_given, served, limit_of};
ghost use Rattle.sc_query.specs.Sources.{told, parameters};

use crate::fault::QueryFault;
use crate::given::{Given, Source};
use crate::words::limit_name;
use sc_decimal::Dec;

/// The most items of a page.
const MOST: u32 = 10_000;

/// The items of a page that no limit is given for.
const USUAL: u32 = 10;

/// The number that digits write, or the most items where it is above that; none where a byte is no digit.
fn digits_total(text: &[u8]) -> Option<u32>
    ensures { result ≡ (if list_all is_ascii_digit text.now then Some (min (digits_value 10 text.now) 10_000) else None) }
{
    let mut total: u32 = 0;
    let mut rest = text;
    'digits: while let Some((first, others)) = rest.split_first() {
        if !first.is_ascii_digit() {
            return None;
        }
        total = (total * 10 + u32::from(*first - b'0')).min(MOST);
        rest = others;
    }
    Some(total)
}

/// The number that a text's digits write, or the most items where it is above that.
fn count_in_text(text: &[u8]) -> Option<u32>
    ensures { result ≡ option_map (λ count. min count 10_000) (count_in_text text.now) }
{
    if text.is_empty() {
        None
    } else {
        digits_total(text)
    }
}

/// `m` times ten to the power `e`, or the most items where it is above that.
fn scaled(m: u128, e: u32) -> u32
    ensures { result ≡ min (m * 10 ^ e) 10_000 }
{
    if m == 0 {
        return 0;
    }
    if e >= 4 {
        return MOST;
    }
    if m >= MOST as u128 {
        MOST
    } else {
        (m as u32 * 10u32.pow(e)).min(MOST)
    }
}

/// The whole number that a number is, or the most items where it is above that; none where it is negative or has a
/// fraction.
fn whole_of(number: &Dec) -> Option<u32>
    ensures { result ≡ option_map (λ count. min count 10_000) (whole_of number.now) }
{
    let e = number.e();
    if number.neg() || e < 0 {
        None
    } else {
        Some(scaled(number.m(), e as u32))
    }
}

/// The number that is given, or the most items where it is above that.
fn count_given(given: Given<'_>) -> Option<u32>
    ensures { result ≡ option_map (λ count. min count 10_000) (count_given (told given.entry)) }
{
    match given {
        Given::Text(text) => count_in_text(text.bytes()),
        Given::Tree(tree) => whole_of(tree.as_number()?),
    }
}

/// The limit of a number that is given.
fn served(count: Option<u32>) -> Result<u32, QueryFault>
    ensures served { (full : Option ℕ) → count ≡ option_map (λ count. min count 10_000) full → result ≡ served full }
    ensures some { IfOk result (λ limit. 1 ≤ limit) }
{
    match count {
        None | Some(0) => Err(QueryFault::BadLimit),
        Some(count) => Ok(count),
    }
}

/// How many items are asked for at most (STAC API, Item Search, `limit`).
pub(crate) fn limit_of(source: Source<'_>) -> Result<u32, QueryFault>
    ensures limit { result ≡ limit_of (parameters source.entry words.limit_name) }
    ensures some { IfOk result (λ limit. 1 ≤ limit) }
    ensures few { IfOk result (λ limit. limit ≤ 10_000) }
{
    match source.given(limit_name()) {
        Some(given) => served(count_given(given)),
        None => Ok(USUAL),
    }
}
