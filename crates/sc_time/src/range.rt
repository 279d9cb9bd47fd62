ghost use Rattle.std.specs.Prelude.{◌≡◌, IsTrue, Some, None, if◌then◌else◌};
ghost use Rattle.sc_time.specs.Ends.{Ends, are_ordered};

use crate::instant::Instant;
use std::marker::Model;

/// A range of time. Its ends belong to it, and an end that is missing is open. Where both are there, the first
/// isn't later than the second. Contracts see it as its two ends in nanoseconds.
#[derive(Clone, Copy, Debug, PartialEq, Eq)]
pub struct Range {
    from: Option<Instant>,
    to: Option<Instant>,
}

impl Model for Range {
    ghost use Rattle.std.specs.Prelude.{IsTrue};
    ghost use Rattle.sc_time.specs.Ends.{Ends, are_ordered};

    ghost Value = { Ends };

    ghost view = { λ a. record { from = a.from; to = a.to } };

    ghost invariant = { λ a. IsTrue (are_ordered a.from a.to) };

    ghost inverse = { λ ends. record { from = ends.from; to = ends.to } };
}

impl Range {
    /// The range between two ends, of which none or each may be open; none where the first is later than the
    /// second.
    pub fn of(from: Option<Instant>, to: Option<Instant>) -> Option<Range>
        ensures { result ≡ (if are_ordered from to then Some (record { from = from; to = to }) else None) }
    {
        if let Some(first) = from
            && let Some(last) = to
            && last < first
        {
            return None;
        }
        Some(Range { from, to })
    }

    /// The range of one instant alone.
    pub fn at(instant: Instant) -> Range
        ensures { result ≡ record { from = Some instant; to = Some instant } }
    {
        Range {
            from: Some(instant),
            to: Some(instant),
        }
    }

    /// The first instant of the range, or none where it has no beginning.
    pub fn from(self) -> Option<Instant>
        ensures value { result ≡ self.from }
        ensures ordered { IsTrue (are_ordered self.from self.to) }
    {
        self.from
    }

    /// The last instant of the range, or none where it has no end.
    pub fn to(self) -> Option<Instant>
        ensures value { result ≡ self.to }
        ensures ordered { IsTrue (are_ordered self.from self.to) }
    {
        self.to
    }
}
