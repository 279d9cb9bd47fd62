ghost use Rattle.std.specs.Prelude.{◌≡◌};
ghost use Rattle.sc_cqlwrite.specs.declared.fault.SpellFault.TheVariants.{OutOfMemory};

use std::alloc::{AllocError, AllocFailed};

/// Why a filter isn't written.
#[derive(Clone, Copy, Debug, PartialEq, Eq)]
pub enum SpellFault {
    /// A text or a pattern of the filter ends in a backslash. No text in quotes does.
    NoSpelling,
    /// Memory ran out. The filter has a text.
    OutOfMemory,
}

impl From<AllocError> for SpellFault {
    ghost from_gives = { λ _ fault. fault ≡ OutOfMemory };

    fn from(_: AllocError) -> SpellFault {
        SpellFault::OutOfMemory
    }
}

impl<T: Drop> From<AllocFailed<T>> for SpellFault {
    ghost from_gives = { λ _ fault. fault ≡ OutOfMemory };

    fn from(_: AllocFailed<T>) -> SpellFault {
        SpellFault::OutOfMemory
    }
}
