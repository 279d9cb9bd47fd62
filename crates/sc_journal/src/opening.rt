ghost use Rattle.std.specs.Prelude.{◌≡◌, ◌*◌, ◌≤◌, ◌<◌, ℕ, List, [], length, IfOk, IfErr};
ghost use Rattle.sc_outside.specs.Causes.{Rose};
ghost use Rattle.sc_journal.specs.Disk.{LeavesOnly};
ghost use Rattle.sc_journal.specs.Format.{HasRecords, IsBroken, SameRecords};
ghost use Rattle.sc_journal.specs.Journal.{Holds};
ghost use Rattle.sc_journal.specs.Opening.{Faulted, IsBad, IsFound, IsOpened, StopsAt};
ghost use Rattle.sc_journal.specs.declared.journal.LastAppend.TheVariants.{Stored};
ghost use Rattle.sc_journal.specs.declared.fault.OpenFault.TheVariants.{DiskFault, BadRecord};

use crate::reading::{Found, read_records};
use crate::store::store;
use crate::taking::Collector;
use crate::{Disk, Journal, LastAppend, OpenFault, Sealed, TakeRecords};
use sc_base::Seq;
use std::alloc::Global;

/// A journal that was opened, and its records.
#[derive(Drop)]
pub struct Opened<D> {
    pub journal: Journal<D>,
    pub records: Seq<Sealed>,
}

/// Why a journal wasn't opened, with its disk. Of `BadRecord` the records before the bad one are there, and else none.
#[derive(Drop)]
pub struct OpenRefused<D> {
    pub fault: OpenFault,
    pub disk: D,
    pub records: Seq<Sealed>,
}

/// Why a journal wasn't opened, with its disk.
#[derive(Drop)]
pub struct NotOpened<D> {
    pub fault: OpenFault,
    pub disk: D,
}

/// Opens the journal on a disk, whatever a crash left there, and keeps its records. It does what `open_into` does.
pub fn open<D: Disk>(alloc: Global, disk: D) -> Result<Opened<D>, OpenRefused<D>>
    // The records are those of the file, and the journal holds them.
    ensures records { IfOk result (λ o. D.tells o.journal.disk → HasRecords (D.reads disk) o.records) }
    ensures holds { IfOk result (λ o. (next : List ℕ) → Holds D.tells D.may_leave o.journal o.records next) }
    ensures last { IfOk result (λ o. o.journal.last ≡ Stored) }

    // It is refused where a record is bad, and else only where the disk failed or memory was wanting.
    ensures bad { IfErr result (λ r. IsBad r.fault (length r.records)) }
    ensures broken { IfErr result (λ r. (n : ℕ) → r.fault ≡ BadRecord n → D.tells r.disk → IsBroken (D.reads disk) r.records) }
    ensures cause { IfErr result (λ r. r.fault ≡ DiskFault → Rose (D.faults disk) (D.faults r.disk)) }

    // A crash at any moment leaves the same records.
    ensures any_moment { IfOk result (λ o. D.tells o.journal.disk → LeavesOnly D.clock D.left_since disk o.journal.disk (SameRecords (D.may_leave disk))) }
    ensures any_moment_err { IfErr result (λ r. D.tells r.disk → LeavesOnly D.clock D.left_since disk r.disk (SameRecords (D.may_leave disk))) }

    ensures told { IfOk result (λ o. D.tells o.journal.disk → D.tells disk) }
    ensures told_err { IfErr result (λ r. D.tells r.disk → D.tells disk) }
    ensures clock { IfOk result (λ o. D.clock disk ≤ D.clock o.journal.disk) }
    ensures clock_err { IfErr result (λ r. D.clock disk ≤ D.clock r.disk) }
    ensures faults { IfOk result (λ o. D.faults disk ≤ D.faults o.journal.disk) }
    ensures faults_err { IfErr result (λ r. D.faults disk ≤ D.faults r.disk) }
{
    let mut taker = Collector {
        records: Vec::new(alloc),
    };
    match open_into(alloc, disk, &mut taker) {
        Ok(journal) => Ok(Opened {
            journal,
            records: Seq::of(taker.records),
        }),
        Err(
            NotOpened {
                fault: OpenFault::BadRecord { n },
                disk,
            },
        ) => Err(OpenRefused {
            fault: OpenFault::BadRecord { n },
            disk,
            records: Seq::of(taker.records),
        }),
        Err(NotOpened { fault, disk }) => Err(OpenRefused {
            fault,
            disk,
            records: Seq::new(alloc),
        }),
    }
}

/// Opens the journal on a disk, whatever a crash left there, and has its records taken one after the other, up to the first bad
/// one. It syncs first. Where the file has at most one byte, it writes a closed gate at its front and syncs. Beside what the
/// taker holds it needs memory for one record.
pub fn open_into<D: Disk, T: TakeRecords>(
    alloc: Global,
    disk: D,
    taker: &mut T,
) -> Result<Journal<D>, NotOpened<D>>
    requires { T.took taker.old [] }

    // The records of the file were taken, and the journal holds them.
    ensures opened { IfOk result (λ journal. IsOpened D.tells D.reads D.may_leave T.took disk taker.new journal) }
    ensures last { IfOk result (λ journal. journal.last ≡ Stored) }

    // It is refused where a record is bad, after those before it were taken, and else only where the disk failed or memory was
    // wanting.
    ensures bad { IfErr result (λ r. (n : ℕ) → r.fault ≡ BadRecord n → StopsAt D.tells D.reads T.took disk taker.new n r.disk) }
    ensures cause { IfErr result (λ r. r.fault ≡ DiskFault → Rose (D.faults disk) (D.faults r.disk)) }

    // A crash at any moment leaves the same records.
    ensures any_moment { IfOk result (λ journal. D.tells journal.disk → LeavesOnly D.clock D.left_since disk journal.disk (SameRecords (D.may_leave disk))) }
    ensures any_moment_err { IfErr result (λ r. D.tells r.disk → LeavesOnly D.clock D.left_since disk r.disk (SameRecords (D.may_leave disk))) }

    ensures told { IfOk result (λ journal. D.tells journal.disk → D.tells disk) }
    ensures told_err { IfErr result (λ r. D.tells r.disk → D.tells disk) }
    ensures clock { IfOk result (λ journal. D.clock disk ≤ D.clock journal.disk) }
    ensures clock_err { IfErr result (λ r. D.clock disk ≤ D.clock r.disk) }
    ensures faults { IfOk result (λ journal. D.faults disk ≤ D.faults journal.disk) }
    ensures faults_err { IfErr result (λ r. D.faults disk ≤ D.faults r.disk) }
{
    let mut disk = disk;
    match find(alloc, &mut disk, taker) {
        Ok(
            Found {
                count,
                place,
                whole: true,
            },
        ) => Ok(Journal {
            disk,
            place,
            count,
            last: LastAppend::Stored,
        }),
        Ok(Found { count, .. }) => Err(NotOpened {
            fault: OpenFault::BadRecord { n: count },
            disk,
        }),
        Err(fault) => Err(NotOpened { fault, disk }),
    }
}

/// Syncs, makes a gate where the file has none, and has the records taken.
fn find<D: Disk, T: TakeRecords>(
    alloc: Global,
    disk: &mut D,
    taker: &mut T,
) -> Result<Found, OpenFault>
    requires { T.took taker.old [] }
    ensures found { IfOk result (λ found. IsFound T.took taker.new found (D.tells disk.new) (D.reads disk.old) (D.may_leave disk.new)) }
    ensures few { IfOk result (λ found. 9 * found.count ≤ found.place) }
    ensures any_moment { D.tells disk.new → LeavesOnly D.clock D.left_since disk.old disk.new (SameRecords (D.may_leave disk.old)) }
    ensures told { D.tells disk.new → D.tells disk.old }
    ensures clock { D.clock disk.old ≤ D.clock disk.new }
    ensures cause { Faulted result (D.faults disk.old) (D.faults disk.new) }
{
    disk.sync()?;
    let size = disk.len()?;
    if size <= 1 {
        store(disk, 0, &[0])?;
        return Ok(Found {
            count: 0,
            place: 0,
            whole: true,
        });
    }
    let found = read_records(alloc, disk, size, taker);
    disk.end_reading();
    found
}
