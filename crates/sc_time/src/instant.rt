ghost use Rattle.std.specs.Prelude.{◌≡◌, SomeIff};
ghost use Rattle.sc_time.specs.Instant.{IsDayNumber, IsInstant, midnight};

use std::marker::Model;

/// The first nanosecond of the year 0000.
const FIRST: i128 = -62_167_219_200_000_000_000;

/// The first nanosecond after the year 9999.
const END: i128 = 253_402_300_800_000_000_000;

const NANOSECONDS_OF_DAY: i128 = 86_400_000_000_000;

/// A point in time, in nanoseconds from 1970-01-01T00:00:00Z, in the years 0000 to 9999 of UTC. Contracts see
/// it as that number. Every day has 86,400 seconds.
#[derive(Clone, Copy, Debug, PartialEq, Eq, PartialOrd, Ord)]
pub struct Instant {
    nanoseconds: i128,
}

impl Model for Instant {
    ghost use Rattle.std.specs.Prelude.{ℤ};
    ghost use Rattle.sc_time.specs.Instant.{IsInstant};

    ghost Value = { ℤ };

    ghost view = { λ a. a.nanoseconds };

    ghost invariant = { λ a. IsInstant a.nanoseconds };

    ghost inverse = { λ n. record { nanoseconds = n } };
}

impl Instant {
    /// The instant so many nanoseconds from 1970-01-01T00:00:00Z; none where that lies outside the years 0000
    /// to 9999 of UTC.
    pub fn of(nanoseconds: i128) -> Option<Instant>
        ensures { SomeIff result (IsInstant nanoseconds) nanoseconds }
    {
        if FIRST <= nanoseconds && nanoseconds < END {
            Some(Instant { nanoseconds })
        } else {
            None
        }
    }

    /// Nanoseconds from 1970-01-01T00:00:00Z.
    pub fn nanoseconds(self) -> i128
        ensures value { result ≡ self }
        ensures range { IsInstant self }
    {
        self.nanoseconds
    }

    /// Midnight in UTC at the beginning of a day, which is given by its number: 0 for 1 January 1970.
    pub(crate) fn at_midnight(day: i32) -> Instant
        requires { IsDayNumber day }
        ensures { result ≡ midnight day }
    {
        Instant {
            nanoseconds: day as i128 * NANOSECONDS_OF_DAY,
        }
    }
}
