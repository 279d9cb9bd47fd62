ghost use Rattle.std.specs.Prelude.{◌≡◌, IfOk, true, false};
ghost use Rattle.sc_kept.specs.Replaying.{CannotFollow, Follows};

use crate::record::read_record;
use sc_catalog::{Catalogue, LoadFault};
use sc_journal::TakeRecords;
use std::alloc::{AllocError, Global};

/// Publishes the load that a payload tells. False exactly where it tells none, or one that the history refuses, and then the
/// catalogue stays as it is.
fn follow(alloc: Global, catalogue: &mut Catalogue, payload: &[u8]) -> Result<bool, AllocError>
    ensures followed { IfOk result (λ taken. taken ≡ true → Follows catalogue.old.entries payload.now catalogue.new.entries) }
    ensures same { IfOk result (λ taken. taken ≡ false → catalogue.new ≡ catalogue.old) }
    ensures refused { IfOk result (λ taken. taken ≡ false → CannotFollow catalogue.old.entries payload.now) }
{
    let Some(entry) = read_record(alloc, payload)? else {
        return Ok(false);
    };
    match catalogue.publish(alloc, entry.by, entry.load) {
        Ok(_) => Ok(true),
        Err(LoadFault::OutOfMemory) => Err(AllocError),
        Err(_) => Ok(false),
    }
}

/// The catalogue whose history the records of a journal tell, as far as they were taken.
#[derive(Drop)]
pub(crate) struct Replay {
    pub catalogue: Catalogue,
    /// The number of the first record that can't follow those before it, if one can't. From it on no record is published.
    pub refused: Option<u64>,
}

impl TakeRecords for Replay {
    ghost use Rattle.sc_kept.specs.Replaying.{IsReplayed};

    ghost took = { λ replay records. IsReplayed replay.catalogue.entries replay.refused records };

    fn take(&mut self, alloc: Global, payload: &[u8]) -> Result<(), AllocError> {
        match self.refused {
            Some(_) => Ok(()),
            None => {
                if !follow(alloc, &mut self.catalogue, payload)? {
                    self.refused = Some(self.catalogue.revision());
                }
                Ok(())
            }
        }
    }
}
