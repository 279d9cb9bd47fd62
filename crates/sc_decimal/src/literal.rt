ghost use Rattle.std.specs.Prelude.{◌≡◌, ◌++◌, OnOk, OnErr, take, length};
ghost use Rattle.sc_decimal.specs.Literal.{literal_of};

use itoa::Buffer;
use std::alloc::AllocError;

/// Writes the literal at the end; where memory is wanting, a front of it.
#[tactic(auto, unfolding(crate::specs::Literal::literal_of))]
fn append(neg: bool, m: u128, e: i32, out: &mut Vec<u8>) -> Result<(), AllocError>
    ensures ok { OnOk result (out.new.items ≡ out.old.items ++ literal_of (record { neg = neg; m = m; e = e })) }
    ensures err { OnErr result (take (length out.old.items) out.new.items ≡ out.old.items) }
{
    let mut buffer = Buffer::new();
    if neg {
        out.extend_from_slice(b"-")?;
    }
    out.extend_from_slice(buffer.format(m).as_bytes())?;
    if e != 0 {
        out.extend_from_slice(b"E")?;
        out.extend_from_slice(buffer.format(e).as_bytes())?;
    }
    Ok(())
}

/// Writes the literal at the end. Want of memory changes nothing.
pub(crate) fn push_literal(neg: bool, m: u128, e: i32, out: &mut Vec<u8>) -> Result<(), AllocError>
    ensures ok { OnOk result (out.new.items ≡ out.old.items ++ literal_of (record { neg = neg; m = m; e = e })) }
    ensures err { OnErr result (out.new.items ≡ out.old.items) }
{
    let before = out.len();
    let written = append(neg, m, e, out);
    if written.is_err() {
        out.truncate(before);
    }
    written
}
