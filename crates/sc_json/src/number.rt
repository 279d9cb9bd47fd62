ghost use Rattle.std.specs.Prelude.{◌≡◌};
ghost use Rattle.sc_json.specs.Numbers.{is_digit_byte, mark_of, point_of, power_of, next_part, behind_whole, is_whole};

use crate::state::Part;

fn is_digit(byte: u8) -> bool
    ensures { result ≡ is_digit_byte byte }
{
    48 <= byte && byte <= 57
}

fn mark(byte: u8) -> Option<Part>
    ensures { result ≡ mark_of byte }
{
    if byte == b'e' {
        return Some(Part::Mark);
    }
    if byte == b'E' {
        return Some(Part::Mark);
    }
    None
}

fn point(byte: u8) -> Option<Part>
    ensures { result ≡ point_of byte }
{
    if byte == b'.' {
        return Some(Part::Point);
    }
    mark(byte)
}

fn power(byte: u8) -> Option<Part>
    ensures { result ≡ power_of byte }
{
    if is_digit(byte) {
        return Some(Part::Power);
    }
    None
}

/// Which part of a number a byte continues, if any.
pub(crate) fn part_on(part: Part, byte: u8) -> Option<Part>
    ensures { result ≡ next_part part byte }
{
    match part {
        Part::Minus => {
            if byte == 48 {
                return Some(Part::Zero);
            }
            if is_digit(byte) {
                return Some(Part::Whole);
            }
            None
        }
        Part::Zero => point(byte),
        Part::Whole => {
            if is_digit(byte) {
                return Some(Part::Whole);
            }
            point(byte)
        }
        Part::Point => {
            if is_digit(byte) {
                return Some(Part::Fraction);
            }
            None
        }
        Part::Fraction => {
            if is_digit(byte) {
                return Some(Part::Fraction);
            }
            mark(byte)
        }
        Part::Mark => {
            if byte == b'+' {
                return Some(Part::Sign);
            }
            if byte == b'-' {
                return Some(Part::Sign);
            }
            power(byte)
        }
        Part::Sign => power(byte),
        Part::Power => power(byte),
    }
}

/// How many bytes behind the longest whole number have come; `None` where no whole number has.
pub(crate) fn behind_whole(part: Part) -> Option<usize>
    ensures { result ≡ behind_whole part }
{
    match part {
        Part::Minus => None,
        Part::Zero | Part::Whole | Part::Fraction | Part::Power => Some(0),
        Part::Point | Part::Mark => Some(1),
        Part::Sign => Some(2),
    }
}

/// Whether a number may end so.
pub(crate) fn is_whole(part: Part) -> bool
    ensures { result ≡ is_whole part }
{
    matches!(
        part,
        Part::Zero | Part::Whole | Part::Fraction | Part::Power
    )
}
