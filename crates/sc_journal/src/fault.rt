ghost use Rattle.std.specs.Prelude.{◌≡◌};
ghost use Rattle.sc_journal.specs.declared.fault.OpenFault.TheVariants.{DiskFault, OutOfMemory};

use sc_outside::Failed;
use std::alloc::{AllocError, AllocFailed};

/// Why a file wasn't opened.
#[derive(Clone, Copy, Debug, PartialEq, Eq)]
pub enum OpenFault {
    /// The disk failed. It comes only where its count of faults rose.
    DiskFault,
    /// The record with this number, from 0, has an open gate and isn't whole, or has no gate after it.
    BadRecord { n: u64 },
    /// Memory was wanting.
    OutOfMemory,
}

impl From<Failed> for OpenFault {
    ghost from_gives = { λ _ fault. fault ≡ DiskFault };

    fn from(_: Failed) -> OpenFault {
        OpenFault::DiskFault
    }
}

impl From<AllocError> for OpenFault {
    ghost from_gives = { λ _ fault. fault ≡ OutOfMemory };

    fn from(_: AllocError) -> OpenFault {
        OpenFault::OutOfMemory
    }
}

impl<T: Drop> From<AllocFailed<T>> for OpenFault {
    ghost from_gives = { λ _ fault. fault ≡ OutOfMemory };

    fn from(_: AllocFailed<T>) -> OpenFault {
        OpenFault::OutOfMemory
    }
}
