ghost use Rattle.std.specs.Prelude.{◌≡◌, ◌++◌, ◌<◌, OnOk, string_bytes, if◌then◌else◌, nat_lt};
ghost use Rattle.sc_json.specs.Compact.{escaped, hex_digit, letter_of, quoted};

use crate::runs::plain_len;
use std::alloc::AllocError;

fn letter(byte: u8) -> Option<u8>
    ensures { result ≡ letter_of byte }
{
    match byte {
        b'"' => Some(b'"'),
        b'\\' => Some(b'\\'),
        8 => Some(b'b'),
        9 => Some(b't'),
        10 => Some(b'n'),
        12 => Some(b'f'),
        13 => Some(b'r'),
        _ => None,
    }
}

fn hex_digit(digit: u8) -> u8
    requires { digit < 16 }
    ensures { result ≡ hex_digit digit }
{
    if digit < 10 { 48 + digit } else { 87 + digit }
}

/// Adds a byte that may not stand as it is between quotes.
#[tactic(auto, unfolding(crate::specs::Compact::escaped))]
fn push_escape(out: &mut String, byte: u8) -> Result<(), AllocError>
    requires { byte < 128 }
    ensures { OnOk result (string_bytes out.new ≡ string_bytes out.old ++ escaped byte) }
{
    if let Some(letter) = letter(byte) {
        out.push('\\')?;
        return out.push(letter as char);
    }
    if byte >= 32 {
        return out.push(byte as char);
    }
    out.push_str("\\u00")?;
    out.push(hex_digit(byte / 16) as char)?;
    out.push(hex_digit(byte % 16) as char)
}

/// Adds a text in quotes, as RFC 8259 section 7 has it: `"` and `\` behind a backslash, the control characters 8, 9,
/// 10, 12 and 13 as `\b`, `\t`, `\n`, `\f`, `\r`, every other below 32 as `\u00` and two lower-case hexadecimal digits,
/// and all else as it is. Where memory runs out a part of it may have been added.
pub fn push_quoted(out: &mut String, text: &str) -> Result<(), AllocError>
    ensures { OnOk result (string_bytes out.new ≡ string_bytes out.old ++ quoted text.now) }
{
    out.push('"')?;
    let mut rest = text;
    'texts: loop {
        let plain = plain_len(rest.as_bytes());
        out.push_str(&rest[..plain])?;
        if plain == rest.len() {
            break 'texts;
        }
        push_escape(out, rest.as_bytes()[plain])?;
        rest = &rest[plain + 1..];
    }
    out.push('"')?;
    Ok(())
}
