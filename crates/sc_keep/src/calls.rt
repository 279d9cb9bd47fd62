//! The calls by which turns are taken at a kept catalogue. Each is exactly one turn, whatever it answers.
ghost use Rattle.std.specs.Prelude.{◌≡◌, [], IfOk};
ghost use Rattle.sc_load.specs.Load.{IsWellFormed};
ghost use Rattle.sc_catalog.specs.Entries.{by, IsSnapshotOf};
ghost use Rattle.sc_visit.specs.Visits.{TakesTurn};
ghost use Rattle.sc_keep.specs.Turns.{MayFail, TriesToStore};

use crate::pass::KeptPass;
use sc_kept::{Disk, KeptFault, Load, Published, Snapshot};
use std::alloc::{AllocError, Global};
use std::sync::Wait;

/// A load isn't stored.
#[derive(Drop)]
pub struct KeptRefused {
    /// Why: the history refuses it, or it has the load and the disk failed.
    pub fault: KeptFault,
    /// The length of the history behind the turn.
    pub revision: u64,
}

/// A snapshot of the history that the turn finds, which the pass has then seen whole. It has loads that are taken and wait to
/// be stored too.
pub fn kept_snapshot<'d, R: Wait, D: Disk>(
    rt: &R,
    alloc: Global,
    pass: &mut KeptPass<'d, D>,
) -> Result<Snapshot, AllocError>
    ensures turn { TakesTurn by [] pass.old pass.new }
    ensures ok { IfOk result (IsSnapshotOf pass.new.seen) }
{
    let turn = pass.pass.enter(rt);
    let snapshot = turn.value.catalogue().snapshot(alloc);
    pass.pass.leave(turn);
    snapshot
}

/// Publishes a load after the history that the turn finds, and stores it before the turn is given back: it becomes the one
/// entry that the turn adds, by the number of the pass. The history may refuse it, want of memory too, and nothing is added
/// then. Where the disk fails the entry is added all the same, and waits to be stored.
pub fn kept_publish<'d, R: Wait, D: Disk>(
    rt: &R,
    alloc: Global,
    pass: &mut KeptPass<'d, D>,
    load: Load,
) -> Result<Published, KeptRefused>
    requires { IsWellFormed load }
    ensures { TriesToStore (MayFail D.faults) load result pass.old pass.new }
{
    let number = pass.pass.number();
    let mut turn = pass.pass.enter(rt);
    match turn.value.publish(alloc, number, load) {
        Ok(published) => {
            pass.pass.leave(turn);
            Ok(published)
        }
        Err(KeptFault::Refused { fault }) => {
            let revision = turn.value.catalogue().revision();
            pass.pass.leave(turn);
            Err(KeptRefused {
                fault: KeptFault::Refused { fault },
                revision,
            })
        }
        Err(KeptFault::NotStored { published, stored }) => {
            pass.pass.leave(turn);
            let revision = published.revision;
            Err(KeptRefused {
                fault: KeptFault::NotStored { published, stored },
                revision,
            })
        }
    }
}
