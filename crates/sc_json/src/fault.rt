ghost use Rattle.std.specs.Prelude.{◌≡◌};
ghost use Rattle.sc_json.specs.declared.fault.StepFault.TheVariants.{Memory};

use std::alloc::{AllocError, AllocFailed};

/// Why there is no tree.
#[derive(Clone, Copy, Debug, PartialEq, Eq)]
pub enum JsonFault {
    Syntax { at: u64 },
    Duplicate { at: u64 },
    TooDeep { at: u64 },
    NumberTooWide { at: u64 },
    NotUtf8 { at: u64 },
    OutOfMemory,
}

/// Why a byte wasn't taken.
#[derive(Clone, Copy)]
pub enum StepFault {
    /// No text goes on so.
    Refused,
    /// A name ends that the object has.
    Duplicate { at: u64 },
    /// A bracket opens level 65.
    TooDeep { at: u64 },
    /// A number ends that is too wide.
    TooWide { at: u64 },
    Memory,
}

impl From<AllocError> for StepFault {
    ghost from_gives = { λ _ e. e ≡ Memory };

    fn from(_e: AllocError) -> StepFault {
        StepFault::Memory
    }
}

impl<T: Drop> From<AllocFailed<T>> for StepFault {
    ghost from_gives = { λ _ e. e ≡ Memory };

    fn from(_e: AllocFailed<T>) -> StepFault {
        StepFault::Memory
    }
}

impl From<AllocError> for JsonFault {
    ghost use Rattle.sc_json.specs.declared.fault.JsonFault.TheVariants.{OutOfMemory};

    ghost from_gives = { λ _ e. e ≡ OutOfMemory };

    fn from(_e: AllocError) -> JsonFault {
        JsonFault::OutOfMemory
    }
}
