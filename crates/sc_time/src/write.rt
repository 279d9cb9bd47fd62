ghost use Rattle.std.specs.Prelude.{◌≡◌, ◌++◌, ◌∷◌, [], OnOk, IfOk, Ok};
ghost use Rattle.sc_time.specs.Reading.{instant_reading};
ghost use Rattle.sc_time.specs.Written.{digits, date_text, clock_text, fraction_text, utc_text, IsWritten};

use crate::civil::form_of;
use crate::form::{ClockFields, DateFields, DateTimeFields};
use crate::instant::Instant;
use sc_base::Text;
use std::alloc::{AllocError, Global};

/// The bytes of the longest text, with a fraction.
const LONGEST: usize = 30;

/// Adds a number in so many digits.
#[tactic(auto, unfolding(crate::specs::Written::digits))]
fn push_digits(bytes: &mut Vec<u8>, width: u32, number: u32) -> Result<(), AllocError>
    ensures { OnOk result (bytes.new.items ≡ bytes.old.items ++ digits width number) }
{
    if width == 0 {
        return Ok(());
    }
    push_digits(bytes, width - 1, number / 10)?;
    bytes.push(b'0' + (number % 10) as u8)?;
    Ok(())
}

#[tactic(auto, unfolding(crate::specs::Written::date_text))]
fn push_date(bytes: &mut Vec<u8>, date: DateFields) -> Result<(), AllocError>
    ensures { OnOk result (bytes.new.items ≡ bytes.old.items ++ date_text date) }
{
    push_digits(bytes, 4, date.year as u32)?;
    bytes.push(b'-')?;
    push_digits(bytes, 2, date.month as u32)?;
    bytes.push(b'-')?;
    push_digits(bytes, 2, date.day as u32)
}

#[tactic(auto, unfolding(crate::specs::Written::clock_text))]
fn push_clock(bytes: &mut Vec<u8>, clock: ClockFields) -> Result<(), AllocError>
    ensures { OnOk result (bytes.new.items ≡ bytes.old.items ++ clock_text clock) }
{
    bytes.push(b'T')?;
    push_digits(bytes, 2, clock.hour as u32)?;
    bytes.push(b':')?;
    push_digits(bytes, 2, clock.minute as u32)?;
    bytes.push(b':')?;
    push_digits(bytes, 2, clock.second as u32)
}

#[tactic(auto, unfolding(crate::specs::Written::fraction_text))]
fn push_fraction(bytes: &mut Vec<u8>, nanosecond: u32) -> Result<(), AllocError>
    ensures { OnOk result (bytes.new.items ≡ bytes.old.items ++ fraction_text nanosecond) }
{
    if nanosecond == 0 {
        return Ok(());
    }
    bytes.push(b'.')?;
    push_digits(bytes, 9, nanosecond)
}

/// Writes the digits of a date and time in UTC.
#[tactic(auto, unfolding(crate::specs::Written::utc_text))]
fn utc_bytes(alloc: Global, form: &DateTimeFields) -> Result<Vec<u8>, AllocError>
    ensures { IfOk result (λ bytes. bytes.items ≡ utc_text form.now) }
{
    let mut bytes = Vec::with_capacity(alloc, LONGEST)?;
    push_date(&mut bytes, form.date)?;
    push_clock(&mut bytes, form.clock)?;
    push_fraction(&mut bytes, form.nanosecond)?;
    bytes.push(b'Z')?;
    Ok(bytes)
}

/// Writes an instant in UTC as RFC 3339 §5.6 has it, `YYYY-MM-DDThh:mm:ssZ`, with a point and nine digits before the
/// `Z` where its nanoseconds aren't 0. `read_instant` reads the text as the same instant.
pub fn write_instant(alloc: Global, at: Instant) -> Result<Text, AllocError>
    ensures written { IfOk result (IsWritten at) }
    ensures read_back { IfOk result (λ text. instant_reading text ≡ Ok at) }
{
    let form = form_of(at);
    let bytes = utc_bytes(alloc, &form)?;
    match Text::of_vec(bytes) {
        Some(text) => Ok(text),
        None => unreachable!(),
    }
}
