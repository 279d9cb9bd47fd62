ghost use Rattle.std.specs.Prelude.{◌≡◌};
ghost use Rattle.sc_geom.specs.declared.fault.GeomFault.TheVariants.{OutOfMemory};

use std::alloc::{AllocError, AllocFailed};

/// Why a tree is no geometry: the first of these that holds of the whole tree.
#[derive(Clone, Copy, Debug, PartialEq, Eq)]
pub enum GeomFault {
    /// It is none of the seven kinds, is nested otherwise, has an empty list in its coordinates,
    /// a line of fewer than 2 positions, or no position at all.
    BadShape,
    /// A ring has fewer than 4 positions, or its ends are in range and differ on the grid.
    OpenRing,
    /// A coordinate is out of range.
    OutOfWorld,
    /// There are more positions than may be, those that close rings counted too.
    TooManyPositions { count: u64 },
    /// Memory ran out, at any place.
    OutOfMemory,
}

impl From<AllocError> for GeomFault {
    ghost from_gives = { λ _ e. e ≡ OutOfMemory };

    fn from(_: AllocError) -> Self {
        GeomFault::OutOfMemory
    }
}

impl<T: Drop> From<AllocFailed<T>> for GeomFault {
    ghost from_gives = { λ _ e. e ≡ OutOfMemory };

    fn from(_: AllocFailed<T>) -> Self {
        GeomFault::OutOfMemory
    }
}
