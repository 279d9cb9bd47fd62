ghost use Rattle.std.specs.Prelude.{◌≡◌, ◌≤◌, ◌<◌, Some, take, true, length, slice_index, IfOk};
ghost use Rattle.std.specs.List.{list_all};
ghost use Rattle.sc_json.specs.Machine as m;
ghost use Rattle.sc_json.specs.Numbers.{parts_on};
ghost use Rattle.sc_json.specs.Pieces.{is_plain_byte};

use crate::number::part_on;
use crate::state::{Mode, Part, Piece, State};
use crate::step::is_blank;
use std::alloc::AllocError;

/// How many bytes of a text in quotes come that stand for themselves.
pub(crate) fn plain_len(bytes: &[u8]) -> usize
    ensures within { result ≤ length bytes.now }
    ensures plain { list_all is_plain_byte (take result bytes.now) ≡ true }
    ensures ends { result < length bytes.now → slice_index bytes.now result < 128 }
{
    for (i, byte) in bytes.iter().enumerate() {
        if *byte < 32 || *byte == b'"' || *byte == b'\\' {
            return i;
        }
    }
    bytes.len()
}

fn blank_len(bytes: &[u8]) -> usize
    ensures within { result ≤ length bytes.now }
    ensures blank { list_all m.is_blank_byte (take result bytes.now) ≡ true }
{
    for (i, byte) in bytes.iter().enumerate() {
        if !is_blank(*byte) {
            return i;
        }
    }
    bytes.len()
}

/// How many bytes go on with the number, and its part behind them.
fn number_len(part: Part, bytes: &[u8]) -> (usize, Part)
    ensures within { result.0 ≤ length bytes.now }
    ensures parts { parts_on part (take result.0 bytes.now) ≡ Some result.1 }
{
    let mut last = part;
    for (i, byte) in bytes.iter().enumerate() {
        match part_on(last, *byte) {
            None => return (i, last),
            Some(next) => last = next,
        }
    }
    (bytes.len(), last)
}

/// Whether white space changes nothing there.
fn rests(mode: &Mode) -> bool
    ensures { result ≡ m.rests mode.now }
{
    matches!(
        mode,
        Mode::Value | Mode::First | Mode::FirstName | Mode::Name | Mode::Colon | Mode::After(_)
    )
}

/// Takes the bytes that only add to a text or a number, or that are white space, all at once, and says how many.
pub(crate) fn run(state: &mut State, bytes: &[u8], at: usize) -> Result<usize, AllocError>
    ensures { IfOk result (λ n. m.RunsOn bytes.now at state.old n state.new) }
{
    if rests(&state.mode) {
        return Ok(blank_len(bytes));
    }
    match &mut state.mode {
        Mode::Quoted {
            piece: Piece::Plain,
            bytes: text,
            ..
        } => {
            let n = plain_len(bytes);
            text.extend(&bytes[..n])?;
            Ok(n)
        }
        Mode::Number { part, literal, .. } => {
            let (n, last) = number_len(*part, bytes);
            literal.extend(&bytes[..n])?;
            *part = last;
            Ok(n)
        }
        _ => Ok(0),
    }
}
