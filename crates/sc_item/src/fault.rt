ghost use Rattle.std.specs.Prelude.{◌≡◌};
ghost use Rattle.sc_item.specs.declared.fault.ItemFault.TheVariants.{OutOfMemory};

use sc_geom::GeomFault;
use std::alloc::{AllocError, AllocFailed};

/// Why a tree is no item: the first of these that holds.
#[derive(Clone, Copy, Debug, PartialEq, Eq)]
pub enum ItemFault {
    /// It isn't an object with `type` "Feature" and an object `properties` (RFC 7946 §3.2).
    NotAFeature,
    /// Its `id` isn't a text of 1 to 256 bytes.
    BadId,
    /// Its `collection` is there and isn't the given text.
    WrongCollection,
    /// Its `datetime` is missing, is neither null nor an instant, or is null where `start_datetime` and `end_datetime`
    /// aren't both given; or both are given, and one is no instant or the start is later than the end.
    BadTime,
    /// Its `geometry` is missing, which is told without a fault, or is neither null nor a geometry of at most 10,000
    /// positions. The fault is never want of memory.
    BadGeometry { fault: Option<GeomFault> },
    OutOfMemory,
}

impl From<AllocError> for ItemFault {
    ghost from_gives = { λ _ e. e ≡ OutOfMemory };

    fn from(_: AllocError) -> Self {
        ItemFault::OutOfMemory
    }
}

impl<T: Drop> From<AllocFailed<T>> for ItemFault {
    ghost from_gives = { λ _ e. e ≡ OutOfMemory };

    fn from(_: AllocFailed<T>) -> Self {
        ItemFault::OutOfMemory
    }
}
