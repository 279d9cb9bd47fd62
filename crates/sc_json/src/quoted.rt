ghost use Rattle.std.specs.Prelude.{◌≡◌, ◌<◌, ◌^◌};
ghost use Rattle.sc_json.specs.Pieces.{piece_of, slash_of, unit_of, low_of, onward, added};

use crate::hex::hex;
use crate::state::Piece;

/// What a byte adds to a text.
#[derive(Clone, Copy)]
pub(crate) enum Added {
    Nothing,
    Byte(u8),
    Scalar(u32),
}

/// Where in a text a byte leads, and what it adds.
#[derive(Clone, Copy)]
pub(crate) struct Grown {
    pub piece: Piece,
    pub added: Added,
}

fn on(piece: Piece) -> Option<Grown>
    ensures { result ≡ onward piece }
{
    Some(Grown {
        piece,
        added: Added::Nothing,
    })
}

fn adds(byte: u8) -> Option<Grown>
    ensures { result ≡ added byte }
{
    Some(Grown {
        piece: Piece::Plain,
        added: Added::Byte(byte),
    })
}

fn slash(byte: u8) -> Option<Grown>
    ensures { result ≡ slash_of byte }
{
    match byte {
        b'"' => adds(34),
        b'\\' => adds(92),
        b'/' => adds(47),
        b'b' => adds(8),
        b'f' => adds(12),
        b'n' => adds(10),
        b'r' => adds(13),
        b't' => adds(9),
        b'u' => on(Piece::Unit),
        _ => None,
    }
}

fn unit_done(code: u64) -> Option<Grown>
    ensures { result ≡ unit_of code }
{
    if code >= 65536 {
        return None;
    }
    if 0xD800 <= code && code < 0xDC00 {
        return on(Piece::Pair(code as u16));
    }
    Some(Grown {
        piece: Piece::Plain,
        added: Added::Scalar(code as u32),
    })
}

fn low_done(high: u16, low: u32) -> Option<Grown>
    requires { low < 2 ^ 21 }
    ensures { result ≡ low_of high low }
{
    if high < 0xD800 {
        return None;
    }
    if low < 0xC00 {
        return None;
    }
    let scalar = 65536 + (high as u32 - 0xD800) * 1024 + (low - 0xC00);
    if scalar >= 0x110000 {
        return None;
    }
    Some(Grown {
        piece: Piece::Plain,
        added: Added::Scalar(scalar),
    })
}

/// One more byte of a text, that isn't its closing quote.
pub(crate) fn grow(piece: Piece, byte: u8) -> Option<Grown>
    ensures { result ≡ piece_of piece byte }
{
    match piece {
        Piece::Plain => {
            if byte == b'\\' {
                return on(Piece::Slash);
            }
            if byte < 32 {
                return None;
            }
            adds(byte)
        }
        Piece::Slash => slash(byte),
        Piece::Unit => match hex(byte) {
            None => None,
            Some(d) => on(Piece::Unit1(d)),
        },
        Piece::Unit1(first) => match hex(byte) {
            None => None,
            Some(d) => {
                if first == 13 && 12 <= d {
                    return None;
                }
                on(Piece::Unit2(first as u16 * 16 + d as u16))
            }
        },
        Piece::Unit2(two) => match hex(byte) {
            None => None,
            Some(d) => on(Piece::Unit3(two as u32 * 16 + d as u32)),
        },
        Piece::Unit3(three) => match hex(byte) {
            None => None,
            Some(d) => unit_done(three as u64 * 16 + d as u64),
        },
        Piece::Pair(high) => {
            if byte == b'\\' {
                return on(Piece::PairSlash(high));
            }
            None
        }
        Piece::PairSlash(high) => {
            if byte == b'u' {
                return on(Piece::Low(high));
            }
            None
        }
        Piece::Low(high) => match hex(byte) {
            None => None,
            Some(d) => {
                if d == 13 {
                    return on(Piece::Low1(high));
                }
                None
            }
        },
        Piece::Low1(high) => match hex(byte) {
            None => None,
            Some(d) => {
                if 12 <= d {
                    return on(Piece::Low2 { high, low: d });
                }
                None
            }
        },
        Piece::Low2 { high, low } => match hex(byte) {
            None => None,
            Some(d) => on(Piece::Low3 {
                high,
                low: low as u16 * 16 + d as u16,
            }),
        },
        Piece::Low3 { high, low } => match hex(byte) {
            None => None,
            Some(d) => low_done(high, low as u32 * 16 + d as u32),
        },
    }
}
