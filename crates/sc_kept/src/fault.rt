ghost use Rattle.std.specs.Prelude.{◌≡◌};
ghost use Rattle.sc_load.specs.declared.fault.LoadFault.TheVariants.{OutOfMemory};
ghost use Rattle.sc_kept.specs.declared.fault.KeptFault.TheVariants.{Refused};

use sc_catalog::{LoadFault, Published};
use sc_journal::OpenFault;
use std::alloc::AllocError;

/// Why a load isn't stored.
#[derive(Drop)]
pub enum KeptFault {
    /// The history refuses it, and nothing changed.
    Refused { fault: LoadFault },
    /// The disk failed. The load stands in the history, and waits to be stored with the next load. `stored` is the number of
    /// the history's loads that are stored.
    NotStored { published: Published, stored: u64 },
}

impl From<LoadFault> for KeptFault {
    ghost from_gives = { λ fault kept. kept ≡ Refused fault };

    fn from(fault: LoadFault) -> KeptFault {
        KeptFault::Refused { fault }
    }
}

impl From<AllocError> for KeptFault {
    ghost from_gives = { λ _ kept. kept ≡ Refused OutOfMemory };

    fn from(_: AllocError) -> KeptFault {
        KeptFault::Refused {
            fault: LoadFault::OutOfMemory,
        }
    }
}

/// Why a kept catalogue isn't opened, with its disk. A bad record is one that isn't whole, isn't of the format, or tells a load
/// that the history of those before it refuses.
#[derive(Drop)]
pub struct ReopenRefused<D> {
    pub fault: OpenFault,
    pub disk: D,
}
