//! Lower-case hexadecimal digits of bytes.
ghost use Rattle.std.specs.Prelude.{◌≡◌, ◌<◌, ◌*◌, ◌↔◌, IsTrue, IfOk, MatchResult, length, slice_index, take};
ghost use Rattle.hex.specs.Hex.{encode_lower, lower_digits};
ghost use Rattle.sc_token.specs.Reading.{IsHex, IsHexOf, is_lower_digit};
ghost use Rattle.sc_token.specs.Faults.{IsNotHex};

use crate::fault::TokenFault;
use std::alloc::{AllocError, Global};

/// The digit of a number.
fn digit(number: u8) -> u8
    requires { number < 16 }
    ensures { result ≡ slice_index lower_digits number }
{
    b"0123456789abcdef"[number as usize]
}

/// Puts two digits in the place of each byte of the first half, from the last byte on.
fn spread(bytes: &mut [u8], count: usize)
    requires { length bytes.old ≡ 2 * count }
    ensures { bytes.new ≡ encode_lower (take count bytes.old) }
{
    let mut at = count;
    while at > 0 {
        at -= 1;
        let byte = bytes[at];
        bytes[2 * at + 1] = digit(byte % 16);
        bytes[2 * at] = digit(byte / 16);
    }
}

/// The digits of bytes, in the memory in which the bytes stand.
pub(crate) fn into_digits(bytes: Vec<u8>) -> Result<Vec<u8>, AllocError>
    ensures { IfOk result (λ digits. digits.items ≡ encode_lower bytes.items) }
{
    let mut digits = bytes;
    let count = digits.len();
    digits.resize(2 * count, 0)?;
    spread(digits.as_mut_slice(), count);
    Ok(digits)
}

/// Whether a byte is a lower-case hexadecimal digit.
fn is_lower_digit(byte: u8) -> bool
    ensures { result ≡ is_lower_digit byte }
{
    matches!(byte, b'0'..=b'9' | b'a'..=b'f')
}

/// Whether bytes are lower-case hexadecimal digits in pairs.
fn is_hex(text: &[u8]) -> bool
    ensures { IsTrue result ↔ IsHex text.now }
{
    text.len() % 2 == 0 && text.iter().all(|byte| is_lower_digit(*byte))
}

/// The bytes that lower-case digits stand for.
pub(crate) fn bytes_of(alloc: Global, text: &[u8]) -> Result<Vec<u8>, TokenFault>
    ensures { MatchResult result (λ bytes. IsHexOf text.now bytes.items) (IsNotHex text.now) }
{
    if !is_hex(text) {
        return Err(TokenFault::NotHex);
    }
    match hex::decode(alloc, text) {
        Ok(bytes) => Ok(bytes),
        // Digits that were judged are refused for want of memory alone.
        Err(_) => Err(TokenFault::OutOfMemory),
    }
}
