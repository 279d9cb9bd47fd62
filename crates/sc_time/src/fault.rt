/// Why a text isn't read as an instant, a date or a range: the first of these, in this order, that holds.
#[derive(Clone, Copy, Debug, PartialEq, Eq)]
pub enum TimeFault {
    /// The text hasn't the form that is asked for (RFC 3339 §5.6), or has more than nine digits behind the point.
    BadForm,
    /// A month, day, hour, minute, second or offset is out of its range (RFC 3339 §5.7); second 60 is too.
    BadDate,
    /// The instant lies outside the years 0000 to 9999 of UTC.
    OutOfRange,
    /// The first end of a range is later than the second.
    Backwards,
}
