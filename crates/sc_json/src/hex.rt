ghost use Rattle.std.specs.Prelude.{◌≡◌, ◌<◌, ◌≤◌, ◌++◌, OnOk};
ghost use Rattle.sc_json.specs.Hex.{hex_of, utf8_of};

use crate::buffer::Buffer;
use std::alloc::AllocError;

/// The value of a hexadecimal digit.
pub(crate) fn hex(byte: u8) -> Option<u8>
    ensures { result ≡ hex_of byte }
{
    if 48 <= byte && byte <= 57 {
        return Some(byte - 48);
    }
    if 65 <= byte && byte <= 70 {
        return Some(byte - 55);
    }
    if 97 <= byte && byte <= 102 {
        return Some(byte - 87);
    }
    None
}

/// Adds a character's bytes.
#[tactic(auto, unfolding(crate::specs::Hex::utf8_of))]
pub(crate) fn push_scalar(bytes: &mut Buffer, c: u32) -> Result<(), AllocError>
    requires { c < 0x110000 }
    ensures { OnOk result (bytes.new ≡ bytes.old ++ utf8_of c) }
{
    if c < 0x80 {
        return bytes.push(c as u8);
    }
    if c < 0x800 {
        bytes.push((192 + c / 64) as u8)?;
        return bytes.push((128 + c % 64) as u8);
    }
    if c < 0x10000 {
        bytes.push((224 + c / 4096) as u8)?;
        bytes.push((128 + c / 64 % 64) as u8)?;
        return bytes.push((128 + c % 64) as u8);
    }
    bytes.push((240 + c / 262144) as u8)?;
    bytes.push((128 + c / 4096 % 64) as u8)?;
    bytes.push((128 + c / 64 % 64) as u8)?;
    bytes.push((128 + c % 64) as u8)
}
