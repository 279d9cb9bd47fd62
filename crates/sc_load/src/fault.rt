ghost use Rattle.std.specs.Prelude.{◌≡◌};
ghost use Rattle.sc_load.specs.declared.fault.PrepareFault.TheVariants as prepare;
ghost use Rattle.sc_load.specs.declared.fault.LoadFault.TheVariants as load;

use sc_base::Text;
use sc_item::ItemFault;
use std::alloc::{AllocError, AllocFailed};

/// Why no load is read of a tree.
#[derive(Clone, Copy, Debug, PartialEq, Eq)]
pub enum PrepareFault {
    /// The item at this place, counted from 0, is the first that can't be read, or has another id than the one that it is to
    /// replace. Its fault is never want of memory.
    BadItem { n: u64, fault: ItemFault },
    /// There are more than 10,000 items. Then none of them is read.
    TooManyItems { count: u64 },
    /// The tree isn't an object with an `id`, a text of 1 to 256 bytes, and a `catalogue:cut` that is missing or one of the
    /// texts "whole", "year" and "month".
    BadCollection,
    /// There wasn't enough memory. It may come in place of any other answer.
    OutOfMemory,
}

impl From<AllocError> for PrepareFault {
    ghost from_gives = { λ _ e. e ≡ prepare.OutOfMemory };

    fn from(_: AllocError) -> Self {
        PrepareFault::OutOfMemory
    }
}

impl<T: Drop> From<AllocFailed<T>> for PrepareFault {
    ghost from_gives = { λ _ e. e ≡ prepare.OutOfMemory };

    fn from(_: AllocFailed<T>) -> Self {
        PrepareFault::OutOfMemory
    }
}

/// Why a catalogue refuses a load: the first of these that holds.
#[derive(Debug, Drop, PartialEq, Eq)]
pub enum LoadFault {
    /// The load's collection isn't there.
    NoCollection,
    /// A collection with the id is there.
    CollectionExists,
    /// An item that is to be inserted is there: the first in the load's order.
    ItemExists { id: Text },
    /// The item that is to be replaced, patched or deleted isn't there.
    NoItem { id: Text },
    /// The id at the first place at which an id stands a second time: `b` of a, b, b, a.
    DuplicateInLoad { id: Text },
    /// The patched tree is no item, or one with another id. The fault is never want of memory.
    BadPatch { fault: ItemFault },
    /// With the load the history would have so many entries and bytes of documents; at most 1,000,000 entries and 2^29
    /// bytes are taken. A sum past 2^64 - 1 is told as that.
    HistoryFull { entries: u64, bytes: u64 },
    /// With the load there would be so many parts with items; at most 65,536 are taken.
    PartitionsFull { count: u64 },
    /// With the load there would be so many collections; at most 1,024 are taken.
    CollectionsFull { count: u64 },
    /// There wasn't enough memory. It may come in place of any other answer.
    OutOfMemory,
}

impl From<AllocError> for LoadFault {
    ghost from_gives = { λ _ e. e ≡ load.OutOfMemory };

    fn from(_: AllocError) -> Self {
        LoadFault::OutOfMemory
    }
}

impl<T: Drop> From<AllocFailed<T>> for LoadFault {
    ghost from_gives = { λ _ e. e ≡ load.OutOfMemory };

    fn from(_: AllocFailed<T>) -> Self {
        LoadFault::OutOfMemory
    }
}
