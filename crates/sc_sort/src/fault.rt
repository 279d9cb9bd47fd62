ghost use Rattle.std.specs.Prelude.{◌≡◌};
ghost use Rattle.sc_sort.specs.declared.fault.SortFault.TheVariants.{OutOfMemory};

use std::alloc::{AllocError, AllocFailed};

/// Why a text or a tree is no sort: the first of these, in this order, that holds.
#[derive(Clone, Copy, Debug, PartialEq, Eq)]
pub enum SortFault {
    /// A key's name is missing, is empty or is no text; the tree isn't a list of objects, or the list is empty.
    BadField,
    /// A `direction` is there and is neither `asc` nor `desc`.
    BadDirection,
    /// There are more than 4 keys; the count is how many.
    TooManyKeys { count: u64 },
    /// There wasn't enough memory.
    OutOfMemory,
}

impl From<AllocError> for SortFault {
    ghost from_gives = { λ _ e. e ≡ OutOfMemory };

    fn from(_: AllocError) -> Self {
        SortFault::OutOfMemory
    }
}

impl<T: Drop> From<AllocFailed<T>> for SortFault {
    ghost from_gives = { λ _ e. e ≡ OutOfMemory };

    fn from(_: AllocFailed<T>) -> Self {
        SortFault::OutOfMemory
    }
}
