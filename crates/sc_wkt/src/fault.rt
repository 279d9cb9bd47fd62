ghost use Rattle.std.specs.Prelude.{◌≡◌};
ghost use Rattle.sc_wkt.specs.declared.fault.WktFault.TheVariants.{OutOfMemory};

use std::alloc::{AllocError, AllocFailed};

/// Why no geometry stands at the front of a text.
#[derive(Clone, Copy, Debug, PartialEq, Eq)]
pub enum WktFault {
    /// The tokens up to and with the one at byte `at` are no front of a geometry; `at` is the text's length where it ends too
    /// soon. A parenthesis of the 65th level is a token that no geometry has.
    Syntax { at: u64 },
    /// At byte `at` stands a number that is too wide, or the first word of a geometry that has a line of fewer than 2
    /// positions, an open ring, a coordinate out of range or more positions than may be.
    BadLiteral { at: u64 },
    /// Memory ran out, at any place.
    OutOfMemory,
}

impl From<AllocError> for WktFault {
    ghost from_gives = { λ _ e. e ≡ OutOfMemory };

    fn from(_: AllocError) -> Self {
        WktFault::OutOfMemory
    }
}

impl<T: Drop> From<AllocFailed<T>> for WktFault {
    ghost from_gives = { λ _ e. e ≡ OutOfMemory };

    fn from(_: AllocFailed<T>) -> Self {
        WktFault::OutOfMemory
    }
}
