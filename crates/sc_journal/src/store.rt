ghost use Rattle.std.specs.Prelude.{◌≡◌, ◌≤◌, length, OnOk};
ghost use Rattle.sc_outside.specs.Causes.{HasCause};
ghost use Rattle.sc_journal.specs.Disk.{LeavesOnly, Only, TornFrom, Within, Written};

use crate::Disk;
use sc_outside::Failed;

/// Writes bytes at a place and syncs. A crash at any moment leaves the file with any bytes in their range.
pub(crate) fn store<D: Disk>(disk: &mut D, at: u64, bytes: &[u8]) -> Result<(), Failed>
    ensures written { D.tells disk.new → OnOk result (Written at bytes.now (D.reads disk.old) (D.reads disk.new)) }
    ensures stored { D.tells disk.new → OnOk result (Only (D.reads disk.new) (D.may_leave disk.new)) }
    ensures told { D.tells disk.new → D.tells disk.old }
    ensures crash { D.tells disk.new → Within (D.may_leave disk.new) (TornFrom at (length bytes.now) (D.may_leave disk.old)) }
    ensures any_moment { D.tells disk.new → LeavesOnly D.clock D.left_since disk.old disk.new (TornFrom at (length bytes.now) (D.may_leave disk.old)) }
    ensures clock { D.clock disk.old ≤ D.clock disk.new }
    ensures cause { HasCause (D.faults disk.old) (D.faults disk.new) result }
{
    disk.write_at(at, bytes)?;
    disk.sync()
}
