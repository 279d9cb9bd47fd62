ghost use Rattle.std.specs.Prelude.{◌≡◌, ◌⊎◌, ◌+◌, ◌<◌, ◌^◌, ◌++◌, ◌∷◌, [], length, IfOk, IfErr, OnOk, OnErr};
ghost use Rattle.std.specs.VecDeque.{deque_len, deque_capacity};
ghost use Rattle.sc_load.specs.Load.{IsWellFormed};
ghost use Rattle.sc_load.specs.declared.fault.LoadFault.TheVariants.{OutOfMemory};
ghost use Rattle.sc_history.specs.Taken.{Refuses};
ghost use Rattle.sc_catalog.specs.Entries.{entry_of, loads_of};
ghost use Rattle.sc_catalog.specs.Holdings.{IsPublished};
ghost use Rattle.sc_kept.specs.Record.{payload_of, IsSealable};

use crate::backlog::store_backlog;
use crate::fault::KeptFault;
use crate::kept::Kept;
use crate::sealing::seal;
use crate::size::size_with;
use sc_catalog::{Catalogue, Load, LoadFault, Published};
use sc_journal::{Disk, Sealed};
use std::alloc::Global;
use std::collections::VecDeque;

/// The record of a load, and the bytes of the records with it. Room for it is made in the backlog.
fn prepare(
    alloc: Global,
    by: u32,
    load: &Load,
    backlog: &mut VecDeque<Sealed>,
    size: u64,
) -> Result<(Sealed, u64), LoadFault>
    requires { size < 2 ^ 63 }
    ensures sealed { IfOk result (λ found. found.0 ≡ payload_of (entry_of by load.now)) }
    ensures sealable { OnOk result (IsSealable (entry_of by load.now)) }
    ensures size { IfOk result (λ found. found.1 ≡ size + 9 + length (payload_of (entry_of by load.now))) }
    ensures small { IfOk result (λ found. found.1 < 2 ^ 63) }
    ensures room { OnOk result (deque_len backlog.new < deque_capacity backlog.new) }
    ensures same { backlog.new.items ≡ backlog.old.items }
    ensures memory { IfErr result (λ fault. fault ≡ OutOfMemory) }
{
    let sealed = seal(alloc, by, load)?;
    let size = size_with(size, &sealed)?;
    backlog.reserve(1)?;
    Ok((sealed, size))
}

/// Takes a load in the catalogue, and its record as the last of the backlog. All memory is taken before the first change.
fn take(
    alloc: Global,
    by: u32,
    load: Load,
    catalogue: &mut Catalogue,
    backlog: &mut VecDeque<Sealed>,
    size: &mut u64,
) -> Result<Published, LoadFault>
    requires formed { IsWellFormed load }
    requires small { size.old < 2 ^ 63 }
    ensures ok { IfOk result (IsPublished by load catalogue.old catalogue.new) }
    ensures waits { OnOk result (backlog.new.items ≡ backlog.old.items ++ payload_of (entry_of by load) ∷ []) }
    ensures sealable { OnOk result (IsSealable (entry_of by load)) }
    ensures size { OnOk result (size.new ≡ size.old + 9 + length (payload_of (entry_of by load))) }
    ensures small { OnOk result (size.new < 2 ^ 63) }
    ensures fault { IfErr result (λ fault. (fault ≡ OutOfMemory) ⊎ Refuses (loads_of catalogue.old.entries) load fault) }
    ensures same { OnErr result (catalogue.new ≡ catalogue.old) }
    ensures same_backlog { OnErr result (backlog.new.items ≡ backlog.old.items) }
    ensures same_size { OnErr result (size.new ≡ size.old) }
{
    let (sealed, larger) = prepare(alloc, by, &load, backlog, *size)?;
    let published = catalogue.publish(alloc, by, load)?;
    backlog.push_back_reserved(sealed);
    *size = larger;
    Ok(published)
}

impl<D: Disk> Kept<D> {
    ghost use Rattle.std.specs.Prelude.{◌≤◌, List, ℕ};
    ghost use Rattle.sc_journal.specs.Disk.{LeavesOnly};
    ghost use Rattle.sc_journal.specs.Format.{HasRecords};
    ghost use Rattle.sc_kept.specs.Record.{payloads_of};
    ghost use Rattle.sc_kept.specs.Keeping.{HasBeginning, IsKeptFault};

    /// Takes a load of the publisher with the number `by`, stores it behind those that wait, and answers only then. All memory
    /// is taken first, and what the history refuses changes nothing. Where the disk fails the load stands in the history and
    /// waits to be stored.
    pub fn publish(&mut self, alloc: Global, by: u32, load: Load) -> Result<Published, KeptFault>
        requires { IsWellFormed load }
        ensures ok { IfOk result (IsPublished by load self.old.catalogue self.new.catalogue) }
        ensures stored { OnOk result (self.new.backlog ≡ []) }
        ensures fault { IfErr result (IsKeptFault D.faults by load self.old self.new) }

        // After `Ok` a crash leaves the whole history. A crash at any moment of the call leaves a beginning of it that has all
        // that was stored before.
        ensures crash { OnOk result (D.tells self.new.journal.disk → (file : List ℕ) → D.may_leave self.new.journal.disk file → HasRecords file (payloads_of self.new.catalogue.entries)) }
        ensures any_moment { D.tells self.new.journal.disk → LeavesOnly D.clock D.left_since self.old.journal.disk self.new.journal.disk (HasBeginning self.new.catalogue.entries self.old.journal.count) }

        ensures told { D.tells self.new.journal.disk → D.tells self.old.journal.disk }
        ensures clock { D.clock self.old.journal.disk ≤ D.clock self.new.journal.disk }
        ensures faults { D.faults self.old.journal.disk ≤ D.faults self.new.journal.disk }
    {
        let published = take(
            alloc,
            by,
            load,
            &mut self.catalogue,
            &mut self.backlog,
            &mut self.size,
        )?;
        match store_backlog(&mut self.journal, &mut self.backlog) {
            Ok(()) => Ok(published),
            Err(_) => Err(KeptFault::NotStored {
                published,
                stored: self.journal.count(),
            }),
        }
    }
}
