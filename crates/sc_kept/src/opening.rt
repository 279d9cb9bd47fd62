ghost use Rattle.std.specs.Prelude.{◌≡◌, ◌≤◌, [], List, ℕ, IfOk, IfErr, MatchResult};
ghost use Rattle.sc_outside.specs.Causes.{Rose};
ghost use Rattle.sc_journal.specs.Disk.{LeavesOnly};
ghost use Rattle.sc_journal.specs.Format.{HasRecords, SameRecords};
ghost use Rattle.sc_journal.specs.declared.fault.OpenFault.TheVariants.{DiskFault, BadRecord, OutOfMemory};
ghost use Rattle.sc_journal.specs.declared.journal.LastAppend.TheVariants.{Stored};
ghost use Rattle.sc_journal.specs.Journal.{Holds};
ghost use Rattle.sc_kept.specs.Replaying.{AreRecordsOf, IsBadFile};

use crate::fault::ReopenRefused;
use crate::kept::Kept;
use crate::replay::Replay;
use crate::size::TOO_MANY;
use sc_catalog::Catalogue;
use sc_journal::{Disk, Journal, NotOpened, OpenFault, open_into};
use std::alloc::Global;
use std::collections::VecDeque;

/// The kept catalogue of a journal that was just opened. A journal of 2^63 bytes or more wants memory.
fn keep<D: Disk>(
    alloc: Global,
    catalogue: Catalogue,
    journal: Journal<D>,
) -> Result<Kept<D>, ReopenRefused<D>>
    requires last { journal.last ≡ Stored }
    requires holds { (records : List (List ℕ)) × AreRecordsOf catalogue.entries records × ((next : List ℕ) → Holds D.tells D.may_leave journal records next) }
    ensures { MatchResult result (λ kept. kept ≡ record { catalogue = catalogue; journal = journal; backlog = [] }) (λ r. (r.fault ≡ OutOfMemory) × (r.disk ≡ journal.disk)) }
{
    let size = journal.place();
    if size >= TOO_MANY {
        return Err(ReopenRefused {
            fault: OpenFault::OutOfMemory,
            disk: journal.into_disk(),
        });
    }
    Ok(Kept {
        catalogue,
        journal,
        backlog: VecDeque::new(alloc),
        size,
    })
}

/// Opens the catalogue whose journal is on a disk, whatever a crash left there: an empty file is an empty catalogue's. Beside the
/// catalogue it needs memory for one record and its load.
pub fn reopen<D: Disk>(alloc: Global, disk: D) -> Result<Kept<D>, ReopenRefused<D>>
    // Each stored load is in the history once, and in its order, and nothing else is.
    ensures history { IfOk result (λ kept. D.tells kept.journal.disk → (records : List (List ℕ)) × HasRecords (D.reads disk) records × AreRecordsOf kept.catalogue.entries records) }
    ensures stored { IfOk result (λ kept. kept.backlog ≡ []) }

    // It is refused where a record is bad, and else only where the disk failed or memory was wanting.
    ensures bad { IfErr result (λ r. (n : ℕ) → r.fault ≡ BadRecord n → D.tells r.disk → IsBadFile (D.reads disk) n) }
    ensures cause { IfErr result (λ r. r.fault ≡ DiskFault → Rose (D.faults disk) (D.faults r.disk)) }

    // A crash at any moment leaves the same records.
    ensures any_moment { IfOk result (λ kept. D.tells kept.journal.disk → LeavesOnly D.clock D.left_since disk kept.journal.disk (SameRecords (D.may_leave disk))) }
    ensures any_moment_err { IfErr result (λ r. D.tells r.disk → LeavesOnly D.clock D.left_since disk r.disk (SameRecords (D.may_leave disk))) }

    ensures told { IfOk result (λ kept. D.tells kept.journal.disk → D.tells disk) }
    ensures told_err { IfErr result (λ r. D.tells r.disk → D.tells disk) }
    ensures clock { IfOk result (λ kept. D.clock disk ≤ D.clock kept.journal.disk) }
    ensures clock_err { IfErr result (λ r. D.clock disk ≤ D.clock r.disk) }
    ensures faults { IfOk result (λ kept. D.faults disk ≤ D.faults kept.journal.disk) }
    ensures faults_err { IfErr result (λ r. D.faults disk ≤ D.faults r.disk) }
{
    let Ok(catalogue) = Catalogue::new(alloc) else {
        return Err(ReopenRefused {
            fault: OpenFault::OutOfMemory,
            disk,
        });
    };
    let mut replay = Replay {
        catalogue,
        refused: None,
    };
    match open_into(alloc, disk, &mut replay) {
        Ok(journal) => match replay.refused {
            None => keep(alloc, replay.catalogue, journal),
            Some(n) => Err(ReopenRefused {
                fault: OpenFault::BadRecord { n },
                disk: journal.into_disk(),
            }),
        },
        Err(NotOpened { fault, disk }) => Err(ReopenRefused { fault, disk }),
    }
}
