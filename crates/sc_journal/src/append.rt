use crate::store::store;
use crate::{Disk, Journal, LastAppend, Sealed};
use sc_outside::Failed;

/// The place of a journal, with a record that is appended, is below this.
const MOST_BYTES: u64 = 1 << 63;

impl<D: Disk> Journal<D> {
    ghost use Rattle.std.specs.Prelude.{nat_lt, ◌≡◌, ◌≢◌, ◌<◌, ◌≤◌, ◌+◌, ◌^◌, ◌++◌, ◌∷◌, [], List, ℕ, length, OnOk, OnErr};
    ghost use Rattle.sc_outside.specs.Causes.{HasCause};
    ghost use Rattle.sc_journal.specs.Disk.{LeavesOnly};
    ghost use Rattle.sc_journal.specs.Journal.{Holds, WithOrWithout};
    ghost use Rattle.sc_journal.specs.declared.journal.LastAppend.TheVariants.{Stored, GateClosed, GateWritten};

    /// Whether the file may have a record more: its place and the record's bytes are together below 2^63.
    pub fn has_room(&self, sealed: &Sealed) -> bool
        ensures { result ≡ nat_lt (self.now.place + length sealed.now) (2 ^ 63) }
    {
        let room = MOST_BYTES.saturating_sub(self.place);
        (sealed.payload().len() as u64) < room
    }

    /// Appends a record. At `Ok` it is stored: from then on each crash leaves a file that has it. `Failed` comes only where
    /// the disk's count of faults rose. After it a crash leaves the file with the record or without it, and it is the same
    /// record that may be appended next.
    pub fn append(&mut self, sealed: &Sealed) -> Result<(), Failed>
        requires { self.old.place + length sealed.now < 2 ^ 63 }

        // The journal holds one record more, whatever comes next, or the same ones, with this record to come.
        ensures stored { OnOk result ((records : List (List ℕ)) → Holds D.tells D.may_leave self.old records sealed.now → (next : List ℕ) → Holds D.tells D.may_leave self.new (records ++ sealed.now ∷ []) next) }
        ensures kept { OnErr result ((records : List (List ℕ)) → Holds D.tells D.may_leave self.old records sealed.now → Holds D.tells D.may_leave self.new records sealed.now) }

        // A crash at any moment of the call leaves the records, with the new one last or without it.
        ensures any_moment { (records : List (List ℕ)) → Holds D.tells D.may_leave self.old records sealed.now → D.tells self.new.disk →
            LeavesOnly D.clock D.left_since self.old.disk self.new.disk (WithOrWithout records sealed.now) }

        ensures place { OnOk result (self.new.place ≡ self.old.place + 9 + length sealed.now) }
        ensures count { OnOk result (self.new.count ≡ self.old.count + 1) }
        ensures last { OnOk result (self.new.last ≡ Stored) }
        ensures same_place { OnErr result (self.new.place ≡ self.old.place) }
        ensures same_count { OnErr result (self.new.count ≡ self.old.count) }
        ensures failed { OnErr result (self.new.last ≢ Stored) }
        ensures told { D.tells self.new.disk → D.tells self.old.disk }
        ensures clock { D.clock self.old.disk ≤ D.clock self.new.disk }
        ensures cause { HasCause (D.faults self.old.disk) (D.faults self.new.disk) result }
    {
        self.close_gate()?;
        self.write_behind(sealed)?;
        self.open_gate(sealed)
    }

    /// Closes the gate, where it may stand open after an append that failed.
    fn close_gate(&mut self) -> Result<(), Failed>
        ensures holds { (records : List (List ℕ)) (next : List ℕ) → Holds D.tells D.may_leave self.old records next → Holds D.tells D.may_leave self.new records next }
        ensures any_moment { (records : List (List ℕ)) (next : List ℕ) → Holds D.tells D.may_leave self.old records next → D.tells self.new.disk →
            LeavesOnly D.clock D.left_since self.old.disk self.new.disk (WithOrWithout records next) }
        ensures closed { OnOk result (self.new.last ≢ GateWritten) }
        ensures open { OnErr result (self.new.last ≡ GateWritten) }
        ensures place { self.new.place ≡ self.old.place }
        ensures count { self.new.count ≡ self.old.count }
        ensures told { D.tells self.new.disk → D.tells self.old.disk }
        ensures clock { D.clock self.old.disk ≤ D.clock self.new.disk }
        ensures cause { HasCause (D.faults self.old.disk) (D.faults self.new.disk) result }
    {
        match self.last {
            LastAppend::Stored => Ok(()),
            LastAppend::GateClosed => Ok(()),
            LastAppend::GateWritten => {
                store(&mut self.disk, self.place, &[0])?;
                self.last = LastAppend::GateClosed;
                Ok(())
            }
        }
    }

    /// Stores the record behind the closed gate.
    fn write_behind(&mut self, sealed: &Sealed) -> Result<(), Failed>
        requires place { self.old.place < 2 ^ 63 }
        requires closed { self.old.last ≢ GateWritten }
        ensures holds { (records : List (List ℕ)) → Holds D.tells D.may_leave self.old records sealed.now → Holds D.tells D.may_leave self.new records sealed.now }
        ensures any_moment { (records : List (List ℕ)) → Holds D.tells D.may_leave self.old records sealed.now → D.tells self.new.disk →
            LeavesOnly D.clock D.left_since self.old.disk self.new.disk (WithOrWithout records sealed.now) }
        ensures written { OnOk result (self.new.last ≡ GateWritten) }
        ensures failed { OnErr result (self.new.last ≡ GateClosed) }
        ensures place { self.new.place ≡ self.old.place }
        ensures count { self.new.count ≡ self.old.count }
        ensures told { D.tells self.new.disk → D.tells self.old.disk }
        ensures clock { D.clock self.old.disk ≤ D.clock self.new.disk }
        ensures cause { HasCause (D.faults self.old.disk) (D.faults self.new.disk) result }
    {
        self.last = LastAppend::GateClosed;
        store(&mut self.disk, self.place + 1, sealed.bytes())?;
        self.last = LastAppend::GateWritten;
        Ok(())
    }

    /// Opens the gate before the record, which stands whole behind it.
    fn open_gate(&mut self, sealed: &Sealed) -> Result<(), Failed>
        requires place { self.old.place + length sealed.now < 2 ^ 63 }
        requires written { self.old.last ≡ GateWritten }
        ensures stored { OnOk result ((records : List (List ℕ)) → Holds D.tells D.may_leave self.old records sealed.now → (next : List ℕ) → Holds D.tells D.may_leave self.new (records ++ sealed.now ∷ []) next) }
        ensures kept { OnErr result ((records : List (List ℕ)) → Holds D.tells D.may_leave self.old records sealed.now → Holds D.tells D.may_leave self.new records sealed.now) }
        ensures any_moment { (records : List (List ℕ)) → Holds D.tells D.may_leave self.old records sealed.now → D.tells self.new.disk →
            LeavesOnly D.clock D.left_since self.old.disk self.new.disk (WithOrWithout records sealed.now) }
        ensures place { OnOk result (self.new.place ≡ self.old.place + 9 + length sealed.now) }
        ensures count { OnOk result (self.new.count ≡ self.old.count + 1) }
        ensures last { OnOk result (self.new.last ≡ Stored) }
        ensures same_place { OnErr result (self.new.place ≡ self.old.place) }
        ensures same_count { OnErr result (self.new.count ≡ self.old.count) }
        ensures failed { OnErr result (self.new.last ≡ GateWritten) }
        ensures told { D.tells self.new.disk → D.tells self.old.disk }
        ensures clock { D.clock self.old.disk ≤ D.clock self.new.disk }
        ensures cause { HasCause (D.faults self.old.disk) (D.faults self.new.disk) result }
    {
        store(&mut self.disk, self.place, &[1])?;
        self.place += 9 + sealed.payload().len() as u64;
        self.count += 1;
        self.last = LastAppend::Stored;
        Ok(())
    }

    /// The number of its records.
    pub fn count(&self) -> u64
        ensures { result ≡ self.now.count }
    {
        self.count
    }

    /// The bytes of its records, each with a gate and a length.
    pub fn place(&self) -> u64
        ensures { result ≡ self.now.place }
    {
        self.place
    }

    /// The journal's disk.
    pub fn into_disk(self) -> D
        ensures { result ≡ self.disk }
    {
        let Journal { disk, .. } = self;
        disk
    }
}
