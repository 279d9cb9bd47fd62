ghost use Rattle.std.specs.Prelude.{◌≡◌, ◌≤◌, ◌<◌, ℕ, List, length, take, drop, IfOk, OnOk, OnErr, MatchResult};
ghost use Rattle.std.specs.Io.{ReadsAtMost};
ghost use Rattle.sc_outside.specs.Causes.{HasCause};
ghost use Rattle.sc_journal.specs.Disk.{Gains, Only, Same, Torn, TornFrom, Within, Written};

use sc_outside::Failed;

/// A file that outlives a crash.
///
/// Where the disk tells of its bytes, a read gives them, and after a crash other bytes may stand there: until a `sync` answers
/// `Ok`, any may stand in the range of each write and in what it added behind the old end. The count of faults and the clock
/// are known of each disk.
pub trait Disk {
    /// The disk tells of its bytes. One that tells after a call told before it.
    ghost tells: { Self → Type 0 };

    /// The bytes that reads give.
    ghost reads: { Self → List ℕ };

    /// What a crash now may leave.
    ghost may_leave: { Self → List ℕ → Type 0 };

    /// What a crash at some moment since a time may have left.
    ghost left_since: { Self → ℕ → List ℕ → Type 0 };

    /// A number that never falls.
    ghost clock: { Self → ℕ };

    /// How often the disk has failed.
    ghost faults: { Self → ℕ };

    /// The number of bytes.
    fn len(&mut self) -> Result<u64, Failed>
        ensures length { tells self.new → IfOk result (λ n. n ≡ length (reads self.old)) }
        ensures told { tells self.new → tells self.old }
        ensures reads { tells self.new → reads self.new ≡ reads self.old }
        ensures crash { tells self.new → Same (may_leave self.old) (may_leave self.new) }
        ensures since { tells self.new → Gains (clock self.old) (left_since self.old) (left_since self.new) (may_leave self.new) }
        ensures clock { clock self.old ≤ clock self.new }
        ensures cause { HasCause (faults self.old) (faults self.new) result };

    /// Reads from a place on into the front of `buf`, and answers how many bytes: at least one where the place is before the
    /// end and `buf` isn't empty.
    fn read_at(&mut self, at: u64, buf: &mut [u8]) -> Result<usize, Failed>
        ensures bound { ReadsAtMost result buf.new }
        ensures bytes { tells self.new → IfOk result (λ n. take n buf.new ≡ take n (drop at (reads self.old))) }
        ensures some { tells self.new → at < length (reads self.old) → 0 < length buf.new → IfOk result (λ n. 0 < n) }
        ensures told { tells self.new → tells self.old }
        ensures reads { tells self.new → reads self.new ≡ reads self.old }
        ensures crash { tells self.new → Same (may_leave self.old) (may_leave self.new) }
        ensures since { tells self.new → Gains (clock self.old) (left_since self.old) (left_since self.new) (may_leave self.new) }
        ensures clock { clock self.old ≤ clock self.new }
        ensures cause { HasCause (faults self.old) (faults self.new) result };

    /// Ends a run of reads. A disk that shows how far reading is stops here.
    fn end_reading(&mut self)
        ensures told { tells self.new → tells self.old }
        ensures reads { tells self.new → reads self.new ≡ reads self.old }
        ensures crash { tells self.new → Same (may_leave self.old) (may_leave self.new) }
        ensures since { tells self.new → Gains (clock self.old) (left_since self.old) (left_since self.new) (may_leave self.new) }
        ensures clock { clock self.old ≤ clock self.new }
        ensures faults { faults self.old ≤ faults self.new };

    /// Writes over what is there and past the end. Where the place is past the end, any bytes may stand between the two.
    fn write_at(&mut self, at: u64, bytes: &[u8]) -> Result<(), Failed>
        ensures reads { tells self.new → MatchResult result (λ _. Written at bytes.now (reads self.old) (reads self.new)) (λ _. Torn at (length bytes.now) (reads self.old) (reads self.new)) }
        ensures told { tells self.new → tells self.old }
        ensures crash { tells self.new → Within (may_leave self.new) (TornFrom at (length bytes.now) (may_leave self.old)) }
        ensures since { tells self.new → Gains (clock self.old) (left_since self.old) (left_since self.new) (may_leave self.new) }
        ensures clock { clock self.old ≤ clock self.new }
        ensures cause { HasCause (faults self.old) (faults self.new) result };

    /// Waits until what was written is stored. After `Ok` a crash leaves what reads give, and a fault changes nothing.
    fn sync(&mut self) -> Result<(), Failed>
        ensures stored { tells self.new → OnOk result (Only (reads self.new) (may_leave self.new)) }
        ensures fault { tells self.new → OnErr result (Same (may_leave self.old) (may_leave self.new)) }
        ensures told { tells self.new → tells self.old }
        ensures reads { tells self.new → reads self.new ≡ reads self.old }
        ensures since { tells self.new → Gains (clock self.old) (left_since self.old) (left_since self.new) (may_leave self.new) }
        ensures clock { clock self.old ≤ clock self.new }
        ensures later { tells self.new → OnOk result (clock self.old < clock self.new) }
        ensures cause { HasCause (faults self.old) (faults self.new) result };

    /// A crash may leave what reads give.
    ghost reads_now: { (disk : Self) → tells disk → may_leave disk (reads disk) };

    /// What a crash since the present time may have left is what a crash now may leave.
    ghost since_now: { (disk : Self) → tells disk → Same (may_leave disk) (left_since disk (clock disk)) };
}
