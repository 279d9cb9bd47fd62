ghost use Rattle.std.specs.Prelude.{◌≡◌, min, Some, None, if◌then◌else◌};
ghost use Rattle.std.specs.List.{list_all};
ghost use Rattle.std.specs.Char.{is_ascii_digit};
ghost use Rattle.std.specs.Str.Parse.{digits_value};
ghost use Rattle.sc_route.specs.Seen as spec;

use sc_http::{Header, find_header};

/// The least number that isn't a revision.
const LIMIT: u128 = 18_446_744_073_709_551_616;

#[tactic(auto, unfolding(crate::specs::Seen::seen_name))]
fn seen_name() -> &'static [u8]
    ensures { result.now ≡ spec.seen_name }
{
    b"catalogue-seen"
}

/// The number that digits write, or 2^64 where it is above that; none where a byte is no digit.
fn digits_total(value: &[u8]) -> Option<u128>
    ensures { result ≡ (if list_all is_ascii_digit value.now then Some (min (digits_value 10 value.now) 18_446_744_073_709_551_616) else None) }
{
    let mut total: u128 = 0;
    let mut rest = value;
    'digits: while let Some((first, others)) = rest.split_first() {
        if !first.is_ascii_digit() {
            return None;
        }
        total = (total * 10 + u128::from(*first - b'0')).min(LIMIT);
        rest = others;
    }
    Some(total)
}

/// The revision that a value writes.
fn revision_in(value: &[u8]) -> Option<u64>
    ensures { result ≡ spec.revision_in value.now }
{
    if value.is_empty() {
        return None;
    }
    let total = digits_total(value)?;
    if total >= LIMIT {
        return None;
    }
    Some(total as u64)
}

/// The revision that header lines say was seen, or that none was; `None` exactly where that can't be read.
pub fn seen_in(headers: &[Header]) -> Option<Option<u64>>
    ensures { result ≡ spec.seen_in headers.now }
{
    let Some((value, rest)) = find_header(seen_name(), headers) else {
        return Some(None);
    };
    if find_header(seen_name(), rest).is_some() {
        return None;
    }
    match revision_in(value) {
        Some(revision) => Some(Some(revision)),
        None => None,
    }
}
