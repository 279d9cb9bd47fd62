ghost use Rattle.std.specs.Prelude.{◌≡◌, ◌≤◌, ◌<◌, ◌+◌, length, take, drop, true, slice_index, IfSome};
ghost use Rattle.std.specs.Str.Lossy.{utf8_valid_len};
ghost use Rattle.sc_grammar.specs.Lexing as lexing;
ghost use Rattle.sc_grammar.specs.Tokens.{IsNext, IsFormed};

use crate::lexeme::{Kind, Lexeme};

/// What of a token came last.
#[derive(Clone, Copy, Debug, PartialEq, Eq)]
pub(crate) enum Part {
    /// Nothing so far.
    Start,
    /// A word.
    Word,
    /// The opening quote of a name.
    NameOpen,
    /// A quote right behind it.
    NameFirstQuote,
    /// A character of a name.
    NameInside,
    /// A quote behind one.
    NameQuote,
    /// The opening quote of a text, or a character in it.
    TextInside,
    /// A backslash in a text.
    TextBackslash,
    /// A quote in a text.
    TextQuote,
    /// The sign of a number.
    Signed,
    /// A digit before the point.
    Whole,
    /// The point.
    Point,
    /// A digit behind the point.
    Fraction,
    /// `e` or `E`.
    Mark,
    /// The sign of an exponent.
    MarkSigned,
    /// A digit of an exponent.
    Power,
    /// A sign that is whole, or goes on with one byte.
    Sign(Kind),
}

fn is_letter(byte: u8) -> bool
    ensures { result ≡ lexing.is_letter byte }
{
    byte >= 128 || (byte >= 65 && byte <= 90) || (byte >= 97 && byte <= 122) || byte == b'_'
}

fn is_digit(byte: u8) -> bool
    ensures { result ≡ lexing.is_digit byte }
{
    byte >= 48 && byte <= 57
}

fn is_blank(byte: u8) -> bool
    ensures { result ≡ lexing.is_blank byte }
{
    byte == 32 || byte == 10 || byte == 13 || byte == 9
}

fn sign_of(byte: u8) -> Option<Part>
    ensures { result ≡ lexing.sign_of byte }
{
    match byte {
        b'=' => Some(Part::Sign(Kind::Equal)),
        b'<' => Some(Part::Sign(Kind::Less)),
        b'>' => Some(Part::Sign(Kind::Greater)),
        b'(' => Some(Part::Sign(Kind::Opening)),
        b')' => Some(Part::Sign(Kind::Closing)),
        b',' => Some(Part::Sign(Kind::Comma)),
        _ => None,
    }
}

fn start_of(byte: u8) -> Option<Part>
    ensures { result ≡ lexing.start_of byte }
{
    if is_letter(byte) {
        return Some(Part::Word);
    }
    if is_digit(byte) {
        return Some(Part::Whole);
    }
    match byte {
        b'"' => Some(Part::NameOpen),
        b'\'' => Some(Part::TextInside),
        b'+' => Some(Part::Signed),
        b'-' => Some(Part::Signed),
        b'.' => Some(Part::Point),
        _ => sign_of(byte),
    }
}

fn word_on(byte: u8) -> Option<Part>
    ensures { result ≡ lexing.word_on byte }
{
    if is_letter(byte) || is_digit(byte) || byte == b':' || byte == b'.' {
        Some(Part::Word)
    } else {
        None
    }
}

fn digit_on(part: Part, byte: u8) -> Option<Part>
    ensures { result ≡ lexing.digit_on part byte }
{
    if is_digit(byte) { Some(part) } else { None }
}

fn mark_on(part: Part, byte: u8) -> Option<Part>
    ensures { result ≡ lexing.mark_on part byte }
{
    if byte == b'e' || byte == b'E' {
        Some(Part::Mark)
    } else {
        digit_on(part, byte)
    }
}

fn number_on(part: Part, byte: u8) -> Option<Part>
    ensures { result ≡ lexing.number_on part byte }
{
    match part {
        Part::Signed => {
            if byte == b'.' {
                Some(Part::Point)
            } else {
                digit_on(Part::Whole, byte)
            }
        }
        Part::Whole => {
            if byte == b'.' {
                Some(Part::Point)
            } else {
                mark_on(Part::Whole, byte)
            }
        }
        Part::Point => digit_on(Part::Fraction, byte),
        Part::Fraction => mark_on(Part::Fraction, byte),
        Part::Mark => {
            if byte == b'+' || byte == b'-' {
                Some(Part::MarkSigned)
            } else {
                digit_on(Part::Power, byte)
            }
        }
        _ => digit_on(Part::Power, byte),
    }
}

fn name_on(is_first: bool, byte: u8) -> Option<Part>
    ensures { result ≡ lexing.name_on is_first byte }
{
    if byte != b'"' {
        Some(Part::NameInside)
    } else if is_first {
        Some(Part::NameFirstQuote)
    } else {
        Some(Part::NameQuote)
    }
}

fn text_on(byte: u8) -> Option<Part>
    ensures { result ≡ lexing.text_on byte }
{
    if byte == b'\'' {
        Some(Part::TextQuote)
    } else if byte == b'\\' {
        Some(Part::TextBackslash)
    } else {
        Some(Part::TextInside)
    }
}

fn backslash_on(byte: u8) -> Option<Part>
    ensures { result ≡ lexing.backslash_on byte }
{
    if byte == b'\\' {
        Some(Part::TextBackslash)
    } else {
        Some(Part::TextInside)
    }
}

fn quoted_on(part: Part, quote: u8, byte: u8) -> Option<Part>
    ensures { result ≡ lexing.quoted_on part quote byte }
{
    if byte == quote { Some(part) } else { None }
}

fn sign_on(kind: Kind, byte: u8) -> Option<Part>
    ensures { result ≡ lexing.sign_on kind byte }
{
    match kind {
        Kind::Less => match byte {
            b'=' => Some(Part::Sign(Kind::AtMost)),
            b'>' => Some(Part::Sign(Kind::NotEqual)),
            _ => None,
        },
        Kind::Greater => match byte {
            b'=' => Some(Part::Sign(Kind::AtLeast)),
            _ => None,
        },
        _ => None,
    }
}

/// What the byte makes of the token; `None` where no token goes on so.
fn part_on(part: Part, byte: u8) -> Option<Part>
    ensures { result ≡ lexing.part_on part byte }
{
    match part {
        Part::Start => start_of(byte),
        Part::Word => word_on(byte),
        Part::NameOpen => name_on(true, byte),
        Part::NameFirstQuote => quoted_on(Part::NameInside, b'"', byte),
        Part::NameInside => name_on(false, byte),
        Part::NameQuote => quoted_on(Part::NameInside, b'"', byte),
        Part::TextInside => text_on(byte),
        Part::TextBackslash => backslash_on(byte),
        Part::TextQuote => quoted_on(Part::TextInside, b'\'', byte),
        Part::Sign(kind) => sign_on(kind, byte),
        _ => number_on(part, byte),
    }
}

/// The kind of token that is whole there.
fn kind_of(part: Part) -> Option<Kind>
    ensures { result ≡ lexing.kind_of part }
{
    match part {
        Part::Word => Some(Kind::Word),
        Part::NameQuote => Some(Kind::QuotedName),
        Part::TextQuote => Some(Kind::Text),
        Part::Whole | Part::Fraction | Part::Power => Some(Kind::Number),
        Part::Sign(kind) => Some(kind),
        _ => None,
    }
}

fn better(part: Part, len: usize, best: Option<(Kind, usize)>) -> Option<(Kind, usize)>
    ensures { result ≡ lexing.better part len best }
{
    match kind_of(part) {
        Some(kind) => Some((kind, len)),
        None => best,
    }
}

/// The longest token at the front, and its length.
#[tactic(auto, unfolding(crate::specs::Lexing::longest))]
fn longest(bytes: &[u8]) -> Option<(Kind, usize)>
    ensures longest { result ≡ lexing.longest bytes.now }
    ensures within { IfSome result (λ found. found.1 ≤ length bytes.now) }
{
    let mut part = Part::Start;
    let mut best = None;
    for (i, byte) in bytes.iter().enumerate() {
        match part_on(part, *byte) {
            None => return best,
            Some(next) => {
                part = next;
                best = better(part, i + 1, best);
            }
        }
    }
    best
}

/// How many bytes of white space are at the front.
fn blank_len(bytes: &[u8]) -> usize
    ensures len { result ≡ lexing.blank_len bytes.now }
    ensures within { result ≤ length bytes.now }
{
    for (i, byte) in bytes.iter().enumerate() {
        if !is_blank(*byte) {
            return i;
        }
    }
    bytes.len()
}

fn skip_blanks(text: &[u8], at: usize) -> usize
    requires { at ≤ length text.now }
    ensures end { result ≡ at + lexing.blank_len (drop at text.now) }
    ensures onward { at ≤ result }
    ensures within { result ≤ length text.now }
{
    at + blank_len(&text[at..])
}

fn lexeme_from(text: &[u8], is_whole: bool, from: usize) -> Lexeme
    requires { from ≤ length text.now }
    ensures lexeme { result ≡ lexing.lexeme_from text.now is_whole from }
    ensures start { result.from ≡ from }
    ensures ordered { from ≤ result.to }
    ensures within { result.to ≤ length text.now }
{
    let mut kind = Kind::Bad;
    let mut to = from;
    if from == text.len() {
        if is_whole {
            kind = Kind::End;
        }
    } else if let Some((found, len)) = longest(&text[from..]) {
        kind = found;
        to = from + len;
    }
    Lexeme { kind, from, to }
}

/// How many bytes at the front are whole characters of UTF-8: all, or those before the first byte that is part of none.
/// Tokens are formed of these.
pub fn readable_len(bytes: &[u8]) -> usize
    ensures len { result ≡ utf8_valid_len bytes.now }
    ensures within { result ≤ length bytes.now }
{
    match std::str::from_utf8(bytes) {
        Ok(_) => bytes.len(),
        Err(error) => error.valid_up_to(),
    }
}

/// The longest token behind the white space at a place. Where the text ends there it is `End`, or `Bad` where the text
/// isn't whole, and `Bad` where no token can be formed.
#[tactic(auto, unfolding(crate::specs::Lexing::lexeme_at))]
pub fn lexeme_at(text: &[u8], is_whole: bool, at: usize) -> Lexeme
    requires { at ≤ length text.now }
    ensures next { IsNext text.now is_whole at result }
    ensures lexeme { result ≡ lexing.lexeme_at text.now is_whole at }
    ensures onward { at ≤ result.from }
    ensures ordered { result.from ≤ result.to }
    ensures forward { IsFormed result.kind → result.from < result.to }
    ensures within { result.to ≤ length text.now }
{
    lexeme_from(text, is_whole, skip_blanks(text, at))
}
