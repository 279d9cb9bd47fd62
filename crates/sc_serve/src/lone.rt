ghost use Rattle.std.specs.Prelude.{◌≡◌, [], IfOk};

use crate::desk::{Desk, Tried};
use sc_catalog::{Catalogue, Load, Snapshot};
use sc_desk::LoadRefused;
use std::alloc::{AllocError, Global};

/// The one pass of a catalogue that nobody else has. Its turns wait for nobody. Its number is 1.
#[derive(Drop)]
pub struct LoneDesk {
    pub catalogue: Catalogue,
}

impl LoneDesk {
    /// The pass of a catalogue that has taken no load.
    pub fn new(alloc: Global) -> Result<LoneDesk, AllocError>
        ensures { IfOk result (λ desk. desk.catalogue.entries ≡ []) }
    {
        Ok(LoneDesk {
            catalogue: Catalogue::new(alloc)?,
        })
    }
}

impl Desk<()> for LoneDesk {
    ghost use Rattle.sc_serve.specs.Desks.{IsAlone};

    ghost may_fail = { ⊥ };

    ghost stands = { λ _ desk visitor. IsAlone desk.catalogue.entries visitor };

    fn seen(&self) -> u64 {
        self.catalogue.revision()
    }

    fn take_snapshot(&mut self, _rt: &(), alloc: Global) -> Result<Snapshot, AllocError> {
        self.catalogue.snapshot(alloc)
    }

    fn publish(&mut self, _rt: &(), alloc: Global, load: Load) -> Result<Tried, LoadRefused> {
        let revision = self.catalogue.revision();
        match self.catalogue.publish(alloc, 1, load) {
            Ok(published) => Ok(Tried::Taken {
                revision: published.revision,
            }),
            Err(fault) => Err(LoadRefused { fault, revision }),
        }
    }
}
