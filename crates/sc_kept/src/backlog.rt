ghost use Rattle.std.specs.Prelude.{◌≡◌, ◌+◌, ◌<◌, ◌≤◌, ◌^◌, ◌++◌, [], List, ℕ, length, OnOk, OnErr};
ghost use Rattle.sc_outside.specs.Causes.{HasCause};
ghost use Rattle.sc_journal.specs.Disk.{LeavesOnly};
ghost use Rattle.sc_journal.specs.Format.{frames};
ghost use Rattle.sc_kept.specs.Keeping.{HasSomeOf, IsBehind, IsStoredOn};

use sc_journal::{Disk, Failed, Journal, Sealed};
use std::collections::VecDeque;

/// Stores what waits in a backlog, the oldest first, up to the first append that fails. What is stored leaves the backlog.
pub(crate) fn store_backlog<D: Disk>(
    journal: &mut Journal<D>,
    backlog: &mut VecDeque<Sealed>,
) -> Result<(), Failed>
    requires { journal.old.place + length (frames backlog.old.items) < 2 ^ 63 }
    ensures stored { (stored : List (List ℕ)) → IsBehind D.tells D.may_leave journal.old stored backlog.old.items → IsStoredOn D.tells D.may_leave stored backlog.old.items journal.new backlog.new.items }
    ensures any_moment { (stored : List (List ℕ)) → IsBehind D.tells D.may_leave journal.old stored backlog.old.items → D.tells journal.new.disk →
        LeavesOnly D.clock D.left_since journal.old.disk journal.new.disk (HasSomeOf stored backlog.old.items) }
    ensures all { OnOk result (backlog.new.items ≡ []) }
    ensures left { OnErr result (0 < length backlog.new.items) }
    ensures size { journal.new.place + length (frames backlog.new.items) ≡ journal.old.place + length (frames backlog.old.items) }
    ensures told { D.tells journal.new.disk → D.tells journal.old.disk }
    ensures clock { D.clock journal.old.disk ≤ D.clock journal.new.disk }
    ensures cause { HasCause (D.faults journal.old.disk) (D.faults journal.new.disk) result }
{
    'storing: while let Some(first) = backlog.front() {
        journal.append(first)?;
        let _stored = backlog.pop_front();
    }
    Ok(())
}
