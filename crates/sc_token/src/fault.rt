ghost use Rattle.std.specs.Prelude.{◌≡◌};
ghost use Rattle.sc_token.specs.declared.fault.TokenFault.TheVariants.{OutOfMemory};

use std::alloc::{AllocError, AllocFailed};

/// Why a text is no token under a sort: the first of these, in this order, that holds.
#[derive(Clone, Copy, Debug, PartialEq, Eq)]
pub enum TokenFault {
    /// Its length is odd, or a byte is none of `0` to `9` and `a` to `f`.
    NotHex,
    /// Its bytes are no JSON text of a list.
    NotAList,
    /// The list hasn't an element for each key of the sort, and two more; the count is how many it has.
    WrongCount { count: u64 },
    /// It isn't the token of a key list that fits the sort.
    WrongKind,
    /// There wasn't enough memory.
    OutOfMemory,
}

impl From<AllocError> for TokenFault {
    ghost from_gives = { λ _ e. e ≡ OutOfMemory };

    fn from(_: AllocError) -> Self {
        TokenFault::OutOfMemory
    }
}

impl<T: Drop> From<AllocFailed<T>> for TokenFault {
    ghost from_gives = { λ _ e. e ≡ OutOfMemory };

    fn from(_: AllocFailed<T>) -> Self {
        TokenFault::OutOfMemory
    }
}
