//! The form of a date and of a date-time (RFC 3339 §5.6), whose numbers may be out of range.
ghost use Rattle.std.specs.Prelude.{◌≡◌, ◌<◌, ◌+◌, ◌*◌, ◌^◌, ◌↔◌, ℕ, List, Some, None, MatchOption, IfSome};
ghost use Rattle.sc_time.specs.Form.{two_digits, two_digits_behind, four_digits, full_date, FitDigits, clock_time, fraction_digits, fraction, offset_behind_sign, offset, date_form, date_time_form};

/// The numbers of a `full-date`.
#[derive(Clone, Copy)]
pub struct DateFields {
    pub year: u16,
    pub month: u8,
    pub day: u8,
}

/// The whole numbers of a `partial-time`.
#[derive(Clone, Copy)]
pub struct ClockFields {
    pub hour: u8,
    pub minute: u8,
    pub second: u8,
}

/// The numbers of a `time-offset`: how far the clock is ahead of UTC, or behind it in the west.
#[derive(Clone, Copy)]
pub struct OffsetFields {
    pub west: bool,
    pub hour: u8,
    pub minute: u8,
}

/// The numbers of a `date-time`, with its fraction in nanoseconds.
#[derive(Clone, Copy)]
pub struct DateTimeFields {
    pub date: DateFields,
    pub clock: ClockFields,
    pub nanosecond: u32,
    pub offset: OffsetFields,
}

/// Two digits at the front, and what stands behind them.
#[inline(always)]
fn two_digits_of(text: &[u8]) -> Option<(u8, &[u8])>
    ensures value { MatchOption result (two_digits text.now ≡ None) (λ front. two_digits text.now ≡ Some (front.0, front.1.now)) }
    ensures bound { MatchOption result (Unit {0}) (λ front. front.0 < 100) }
{
    match text {
        [tens, ones, rest @ ..] => {
            if tens.is_ascii_digit() && ones.is_ascii_digit() {
                Some(((*tens - b'0') * 10 + (*ones - b'0'), rest))
            } else {
                None
            }
        }
        _ => None,
    }
}

/// Two digits behind a mark at the front, and what stands behind them.
#[inline(always)]
fn two_digits_behind_of<'a>(mark: u8, text: &'a [u8]) -> Option<(u8, &'a [u8])>
    ensures value { MatchOption result (two_digits_behind mark text.now ≡ None) (λ front. two_digits_behind mark text.now ≡ Some (front.0, front.1.now)) }
    ensures bound { MatchOption result (Unit {0}) (λ front. front.0 < 100) }
{
    match text {
        [first, rest @ ..] if *first == mark => two_digits_of(rest),
        _ => None,
    }
}

/// Four digits at the front, and what stands behind them.
#[inline(always)]
fn four_digits_of(text: &[u8]) -> Option<(u16, &[u8])>
    ensures value { MatchOption result (four_digits text.now ≡ None) (λ front. four_digits text.now ≡ Some (front.0, front.1.now)) }
    ensures bound { MatchOption result (Unit {0}) (λ front. front.0 < 10000) }
{
    let (high, rest) = two_digits_of(text)?;
    let (low, rest) = two_digits_of(rest)?;
    Some((high as u16 * 100 + low as u16, rest))
}

/// A `full-date` at the front, and what stands behind it.
#[tactic(auto, unfolding(crate::specs::Form::full_date))]
#[inline(always)]
fn full_date_of(text: &[u8]) -> Option<(DateFields, &[u8])>
    ensures value { MatchOption result (full_date text.now ≡ None) (λ front. full_date text.now ≡ Some (front.0, front.1.now)) }
    ensures bound { MatchOption result (Unit {0}) (λ front. FitDigits front.0) }
{
    let (year, rest) = four_digits_of(text)?;
    let (month, rest) = two_digits_behind_of(b'-', rest)?;
    let (day, rest) = two_digits_behind_of(b'-', rest)?;
    Some((DateFields { year, month, day }, rest))
}

/// A clock's time behind its `T` at the front, and what stands behind it.
#[tactic(auto, unfolding(crate::specs::Form::clock_time))]
#[inline(always)]
fn clock_time_of(text: &[u8]) -> Option<(ClockFields, &[u8])>
    ensures { MatchOption result (clock_time text.now ≡ None) (λ front. clock_time text.now ≡ Some (front.0, front.1.now)) }
{
    match text {
        [b'T' | b't', rest @ ..] => {
            let (hour, rest) = two_digits_of(rest)?;
            let (minute, rest) = two_digits_behind_of(b':', rest)?;
            let (second, rest) = two_digits_behind_of(b':', rest)?;
            Some((
                ClockFields {
                    hour,
                    minute,
                    second,
                },
                rest,
            ))
        }
        _ => None,
    }
}

/// An offset behind its sign, where the text ends with it.
#[inline(always)]
fn offset_behind_sign_of(west: bool, text: &[u8]) -> Option<OffsetFields>
    ensures { result ≡ offset_behind_sign west text.now }
{
    let (hour, rest) = two_digits_of(text)?;
    let (minute, rest) = two_digits_behind_of(b':', rest)?;
    if rest.is_empty() {
        Some(OffsetFields { west, hour, minute })
    } else {
        None
    }
}

/// An offset, where the text ends with it.
#[tactic(auto, unfolding(crate::specs::Form::offset))]
#[inline(always)]
fn offset_of(text: &[u8]) -> Option<OffsetFields>
    ensures { result ≡ offset text.now }
{
    match text {
        [b'Z' | b'z'] => Some(OffsetFields {
            west: false,
            hour: 0,
            minute: 0,
        }),
        [b'+', rest @ ..] => offset_behind_sign_of(false, rest),
        [b'-', rest @ ..] => offset_behind_sign_of(true, rest),
        _ => None,
    }
}

/// The numbers of a text that is a `full-date`.
#[tactic(auto, unfolding(crate::specs::Form::date_form))]
pub fn date_of(text: &[u8]) -> Option<DateFields>
    ensures value { result ≡ date_form text.now }
    ensures bound { IfSome result FitDigits }
{
    let (date, rest) = full_date_of(text)?;
    if rest.is_empty() { Some(date) } else { None }
}

/// A power of ten.
#[inline(always)]
fn power_of_ten(exponent: usize) -> u32
    requires { exponent < 10 }
    ensures value { result ≡ 10 ^ exponent }
{
    match exponent {
        0 => 1,
        1 => 10,
        2 => 100,
        3 => 1_000,
        4 => 10_000,
        5 => 100_000,
        6 => 1_000_000,
        7 => 10_000_000,
        8 => 100_000_000,
        _ => 1_000_000_000,
    }
}

/// The nanoseconds of the 1 to 9 digits at the front, and what stands behind them.
#[tactic(auto, unfolding(crate::specs::Form::fraction_digits))]
#[inline(always)]
fn fraction_digits_of(text: &[u8]) -> Option<(u32, &[u8])>
    ensures value { MatchOption result (fraction_digits text.now ≡ None) (λ front. fraction_digits text.now ≡ Some (front.0, front.1.now)) }
    ensures bound { MatchOption result (Unit {0}) (λ front. front.0 < 1_000_000_000) }
{
    let mut value: u32 = 0;
    let mut count: usize = 0;
    'digits: while count < text.len() && text[count].is_ascii_digit() {
        if count == 9 {
            return None;
        }
        value = value * 10 + (text[count] - b'0') as u32;
        count += 1;
    }
    if count == 0 {
        return None;
    }
    let (_, rest) = text.split_at(count);
    Some((value * power_of_ten(9 - count), rest))
}

/// A fraction in nanoseconds at the front, which may be missing, and what stands behind it.
#[tactic(auto, unfolding(crate::specs::Form::fraction))]
#[inline(always)]
fn fraction_of(text: &[u8]) -> Option<(u32, &[u8])>
    ensures value { MatchOption result (fraction text.now ≡ None) (λ front. fraction text.now ≡ Some (front.0, front.1.now)) }
    ensures bound { MatchOption result (Unit {0}) (λ front. front.0 < 1_000_000_000) }
{
    match text {
        [b'.', rest @ ..] => fraction_digits_of(rest),
        _ => Some((0, text)),
    }
}

/// The numbers of a text that is a `date-time`.
#[tactic(auto, unfolding(crate::specs::Form::date_time_form))]
pub fn date_time_of(text: &[u8]) -> Option<DateTimeFields>
    ensures value { result ≡ date_time_form text.now }
    ensures bound { IfSome result (λ form. FitDigits form.date × (form.nanosecond < 1_000_000_000)) }
{
    let (date, rest) = full_date_of(text)?;
    let (clock, rest) = clock_time_of(rest)?;
    let (nanosecond, rest) = fraction_of(rest)?;
    let offset = offset_of(rest)?;
    Some(DateTimeFields {
        date,
        clock,
        nanosecond,
        offset,
    })
}
