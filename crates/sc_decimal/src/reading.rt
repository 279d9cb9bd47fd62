ghost use Rattle.std.specs.Prelude.{ℕ, ◌≡◌, ◌≢◌, ◌<◌, ◌≤◌, ◌+◌, ◌%◌, ◌^◌, IfSome, Some};
ghost use Rattle.sc_decimal.specs.Digits.{Seen, in_form, is_digit, whole_of, fraction_of, power_of, seen_in};
ghost use Rattle.sc_decimal.specs.Stands.{Keeps, KeepsNext};
ghost use Rattle.sc_decimal.specs.Digits.{ended_in, seen_of};
ghost use Rattle.sc_decimal.specs.Value.{AnswersNumber, AnswersSeen, exponent_of};

use crate::form::Form;
use crate::number::{Dec, NumFault};
use crate::scan::{Front, with_digit, with_power};

/// A number in the midst of its text.
#[derive(Clone, Copy, Debug)]
pub(crate) struct Scan {
    pub form: Form,
    pub neg: bool,
    pub front: Option<Front>,
    pub places: u64,
    pub below: bool,
    pub power: u128,
}

fn is_digit(byte: u8) -> bool
    ensures { result ≡ is_digit byte }
{
    48 <= byte && byte <= 57
}

fn whole(scan: Scan, byte: u8) -> Option<Scan>
    requires places { scan.places < 2 ^ 63 }
    requires zeros { IfSome scan.front (λ f. f.zeros < 2 ^ 63) }
    requires power { scan.power ≤ 2 ^ 80 }
    ensures { (seen : Seen) (n : ℕ) → Keeps scan seen n → KeepsNext result (whole_of seen byte) (n + 1) }
{
    if is_digit(byte) {
        let front = with_digit(scan.front, byte - 48);
        return Some(Scan {
            form: Form::Whole,
            front,
            ..scan
        });
    }
    None
}

fn fraction(scan: Scan, byte: u8) -> Option<Scan>
    requires places { scan.places < 2 ^ 63 }
    requires zeros { IfSome scan.front (λ f. f.zeros < 2 ^ 63) }
    requires power { scan.power ≤ 2 ^ 80 }
    ensures { (seen : Seen) (n : ℕ) → Keeps scan seen n → KeepsNext result (fraction_of seen byte) (n + 1) }
{
    if is_digit(byte) {
        let front = with_digit(scan.front, byte - 48);
        let places = scan.places + 1;
        return Some(Scan {
            form: Form::Fraction,
            front,
            places,
            ..scan
        });
    }
    None
}

fn power(scan: Scan, byte: u8) -> Option<Scan>
    requires places { scan.places < 2 ^ 63 }
    requires zeros { IfSome scan.front (λ f. f.zeros < 2 ^ 63) }
    requires power { scan.power ≤ 2 ^ 80 }
    ensures { (seen : Seen) (n : ℕ) → Keeps scan seen n → KeepsNext result (power_of seen byte) (n + 1) }
{
    if is_digit(byte) {
        let power = with_power(scan.power, byte - 48);
        return Some(Scan {
            form: Form::Power,
            power,
            ..scan
        });
    }
    None
}

fn with_form(scan: Scan, form: Form) -> Option<Scan>
    ensures { (seen : Seen) (n : ℕ) → Keeps scan seen n → KeepsNext result (Some (in_form seen form)) (n + 1) }
{
    Some(Scan { form, ..scan })
}

fn step(scan: Scan, byte: u8) -> Option<Scan>
    requires places { scan.places < 2 ^ 63 }
    requires zeros { IfSome scan.front (λ f. f.zeros < 2 ^ 63) }
    requires power { scan.power ≤ 2 ^ 80 }
    ensures { (seen : Seen) (n : ℕ) → Keeps scan seen n → KeepsNext result (seen_in scan.form seen byte) (n + 1) }
{
    match scan.form {
        Form::Start => {
            if byte == b'+' {
                return with_form(scan, Form::Signed);
            }
            if byte == b'-' {
                return Some(Scan {
                    form: Form::Signed,
                    neg: true,
                    ..scan
                });
            }
            if byte == b'.' {
                return with_form(scan, Form::Point);
            }
            whole(scan, byte)
        }
        Form::Signed => {
            if byte == b'.' {
                return with_form(scan, Form::Point);
            }
            whole(scan, byte)
        }
        Form::Whole => {
            if byte == b'.' {
                return with_form(scan, Form::Point);
            }
            if byte == b'e' {
                return with_form(scan, Form::Mark);
            }
            if byte == b'E' {
                return with_form(scan, Form::Mark);
            }
            whole(scan, byte)
        }
        Form::Point => fraction(scan, byte),
        Form::Fraction => {
            if byte == b'e' {
                return with_form(scan, Form::Mark);
            }
            if byte == b'E' {
                return with_form(scan, Form::Mark);
            }
            fraction(scan, byte)
        }
        Form::Mark => {
            if byte == b'+' {
                return with_form(scan, Form::MarkSigned);
            }
            if byte == b'-' {
                return Some(Scan {
                    form: Form::MarkSigned,
                    below: true,
                    ..scan
                });
            }
            power(scan, byte)
        }
        Form::MarkSigned => power(scan, byte),
        Form::Power => power(scan, byte),
    }
}

fn exponent(below: bool, power: u128, zeros: u64, places: u64) -> i128
    requires { power ≤ 2 ^ 80 }
    ensures { result ≡ exponent_of below power zeros places }
{
    if below {
        return zeros as i128 - places as i128 - power as i128;
    }
    power as i128 + zeros as i128 - places as i128
}

/// The number of digits that don't end in a zero, where its exponent is in range.
pub(crate) fn with_exponent(neg: bool, m: u128, e: i128) -> Result<Dec, NumFault>
    requires digits { m < 10 ^ 34 }
    requires trimmed { m % 10 ≢ 0 }
    ensures { AnswersNumber (record { neg = neg; m = m; e = e }) result }
{
    if e < -6000 {
        return Err(NumFault::NumberTooWide);
    }
    if 6000 < e {
        return Err(NumFault::NumberTooWide);
    }
    Ok(Dec::new(neg, m, e as i32))
}

/// The number of a whole scan.
fn value(scan: Scan) -> Result<Dec, NumFault>
    requires places { scan.places < 2 ^ 64 }
    requires front { IfSome scan.front (λ f. (f.m < 10 ^ 34) × (f.zeros < 2 ^ 64) × (f.m % 10 ≡ 0 → f.m ≡ 0)) }
    requires power { scan.power ≤ 2 ^ 80 }
    ensures { (seen : Seen) (n : ℕ) → Keeps scan seen n → n < 2 ^ 64 → AnswersSeen (Some seen) result }
{
    let Some(Front { m, zeros }) = scan.front else {
        return Err(NumFault::NumberTooWide);
    };
    if m == 0 {
        return Ok(Dec::new(false, 0, 0));
    }
    let e = exponent(scan.below, scan.power, zeros, scan.places);
    with_exponent(scan.neg, m, e)
}

fn finish(scan: Scan) -> Result<Dec, NumFault>
    requires places { scan.places < 2 ^ 64 }
    requires front { IfSome scan.front (λ f. (f.m < 10 ^ 34) × (f.zeros < 2 ^ 64) × (f.m % 10 ≡ 0 → f.m ≡ 0)) }
    requires power { scan.power ≤ 2 ^ 80 }
    ensures { (seen : Seen) (n : ℕ) → Keeps scan seen n → n < 2 ^ 64 → AnswersSeen (ended_in scan.form seen) result }
{
    match scan.form {
        Form::Whole => value(scan),
        Form::Fraction => value(scan),
        Form::Power => value(scan),
        _ => Err(NumFault::NotANumber),
    }
}

pub(crate) fn read(text: &[u8]) -> Result<Dec, NumFault>
    ensures { AnswersSeen (seen_of text.now) result }
{
    let mut scan = Scan {
        form: Form::Start,
        neg: false,
        front: Some(Front { m: 0, zeros: 0 }),
        places: 0,
        below: false,
        power: 0,
    };
    for (at, byte) in text.iter().enumerate() {
        match step(scan, *byte) {
            None => return Err(NumFault::NotANumber),
            Some(next) => scan = next,
        }
    }
    finish(scan)
}
