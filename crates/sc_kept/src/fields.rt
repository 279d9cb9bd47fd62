ghost use Rattle.std.specs.Prelude.{◌≡◌, ◌≤◌, ◌<◌, length, take, drop, IfOk, MatchOption};
ghost use Rattle.std.specs.Int.{w64, from_be_bytes};
ghost use Rattle.sc_kept.specs.Record.{AreFields, AreNoFields, BeginsWith, BeginsWithNone};

use sc_base::{Seq, Text};
use std::alloc::{AllocError, Global};

/// The number of eight bytes that begins here, and what comes after it.
fn number_at(bytes: &[u8]) -> Option<(u64, &[u8])>
    ensures { MatchOption result (length bytes.now < 8) (λ r. (8 ≤ length bytes.now) × (r.0 ≡ from_be_bytes w64 (take 8 bytes.now)) × (r.1.now ≡ drop 8 bytes.now)) }
{
    if bytes.len() < 8 {
        return None;
    }
    let (front, rest) = bytes.split_at(8);
    let number = u64::from_be_bytes([
        front[0], front[1], front[2], front[3], front[4], front[5], front[6], front[7],
    ]);
    Some((number, rest))
}

/// The field that begins here, and what comes after it.
fn next_field(bytes: &[u8]) -> Option<(&[u8], &[u8])>
    ensures { MatchOption result (BeginsWithNone bytes.now) (λ r. BeginsWith bytes.now r.0.now r.1.now) }
{
    let (size, rest) = number_at(bytes)?;
    if size > rest.len() as u64 {
        return None;
    }
    Some(rest.split_at(size as usize))
}

/// The fields that bytes are, each a text. None where they are no such fields.
pub(crate) fn read_fields(alloc: Global, bytes: &[u8]) -> Result<Option<Seq<Text>>, AllocError>
    ensures { IfOk result (λ found. MatchOption found (AreNoFields bytes.now) (AreFields bytes.now)) }
{
    let mut fields = Vec::new(alloc);
    let mut rest = bytes;
    'fields: while !rest.is_empty() {
        let Some((field, after)) = next_field(rest) else {
            return Ok(None);
        };
        let Some(text) = Text::of(alloc, field)? else {
            return Ok(None);
        };
        fields.push(text)?;
        rest = after;
    }
    Ok(Some(Seq::of(fields)))
}
