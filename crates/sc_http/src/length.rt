ghost use Rattle.std.specs.Prelude.{◌≡◌, min, Some, None, if◌then◌else◌};
ghost use Rattle.std.specs.List.{list_all};
ghost use Rattle.std.specs.Char.{is_ascii_digit};
ghost use Rattle.std.specs.Str.Parse.{digits_value};
ghost use Rattle.sc_http.specs.Headers as spec;

use crate::fault::LengthFault;
use crate::headers::find_header;
use crate::request::Header;

/// The most bytes of a body.
const MOST_BODY: u32 = 16_777_216;

#[tactic(auto, unfolding(crate::specs::Headers::coding_name))]
fn coding_name() -> &'static [u8]
    ensures { result.now ≡ spec.coding_name }
{
    b"transfer-encoding"
}

#[tactic(auto, unfolding(crate::specs::Headers::length_name))]
fn length_name() -> &'static [u8]
    ensures { result.now ≡ spec.length_name }
{
    b"content-length"
}

/// The number that digits write, or one more than the most bytes of a body where it is above that.
fn digits_total(value: &[u8]) -> Option<u32>
    ensures { result ≡ (if list_all is_ascii_digit value.now then Some (min (digits_value 10 value.now) 16777217) else None) }
{
    let mut total: u32 = 0;
    let mut rest = value;
    'digits: while let Some((first, others)) = rest.split_first() {
        if !first.is_ascii_digit() {
            return None;
        }
        total = (total * 10 + u32::from(*first - b'0')).min(MOST_BODY + 1);
        rest = others;
    }
    Some(total)
}

/// The length that a value states.
fn stated(value: &[u8]) -> Result<u32, LengthFault>
    ensures { result ≡ spec.stated_length value.now }
{
    if value.is_empty() {
        return Err(LengthFault::Unreadable);
    }
    let Some(total) = digits_total(value) else {
        return Err(LengthFault::Unreadable);
    };
    if total > MOST_BODY {
        return Err(LengthFault::TooLong);
    }
    Ok(total)
}

/// The length of the body behind these headers.
pub fn body_len(headers: &[Header]) -> Result<u32, LengthFault>
    ensures { result ≡ spec.length_of headers.now }
{
    if find_header(coding_name(), headers).is_some() {
        return Err(LengthFault::Coded);
    }
    let Some((value, rest)) = find_header(length_name(), headers) else {
        return Ok(0);
    };
    if find_header(length_name(), rest).is_some() {
        return Err(LengthFault::Unreadable);
    }
    stated(value)
}
