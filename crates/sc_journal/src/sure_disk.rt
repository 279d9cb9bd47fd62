use crate::Disk;
use crate::pieces::copy_from;
use crate::recorded::Recorded;
use sc_outside::Failed;
use std::alloc::{AllocError, Global};

/// A disk in memory that never fails, with a record of its calls. A call past its room is answered with `Ok`: what it and
/// later calls write is dropped, and from then on the disk tells nothing.
#[derive(Drop)]
pub struct SureDisk {
    recorded: Recorded,
    full: bool,
}

impl SureDisk {
    ghost use Rattle.std.specs.Prelude.{◌≡◌, ◌+◌, ◌↔◌, [], IfOk, IsTrue, false};
    ghost use Rattle.sc_journal.specs.Memory.{sure_bytes, sure_changes, sure_full};
    ghost use Rattle.sc_journal.specs.Recorded.{HasRoom};

    /// A disk on which these bytes are stored. It takes its whole room now: for `room` bytes in all, for as many writes and
    /// syncs, and for as many bytes that it had before its writes, each of which counts all that it had.
    pub fn with_room(alloc: Global, bytes: Vec<u8>, room: u64) -> Result<SureDisk, AllocError>
        ensures bytes { IfOk result (λ d. sure_bytes d ≡ bytes.items) }
        ensures changes { IfOk result (λ d. sure_changes d ≡ []) }
        ensures tells { IfOk result (λ d. sure_full d ≡ false) }
    {
        Ok(SureDisk {
            recorded: Recorded::with_room(alloc, bytes, room as usize)?,
            full: false,
        })
    }

    /// The bytes that reads give.
    pub fn bytes(&self) -> &[u8]
        ensures { result.now ≡ sure_bytes self.now }
    {
        self.recorded.bytes()
    }

    /// There is room for a write of so many bytes at a place.
    fn has_room(&self, at: u64, size: usize) -> bool
        ensures { IsTrue result ↔ ((sure_full self.now ≡ false) × HasRoom (at + size) self.now.recorded) }
    {
        match at.checked_add(size as u64) {
            Some(end) => !self.full && self.recorded.has_room(end as usize),
            None => false,
        }
    }
}

impl Disk for SureDisk {
    ghost use Rattle.std.specs.Prelude.{◌≡◌, false};
    ghost use Rattle.sc_journal.specs.Images.{MayBeLeft, LeftSince, syncs, reads_now, since_now};
    ghost use Rattle.sc_journal.specs.Recorded.{bytes, changes};

    ghost tells = { λ d. d.full ≡ false };

    ghost reads = { λ d. bytes d.recorded };

    ghost may_leave = { λ d. MayBeLeft (changes d.recorded) (bytes d.recorded) };

    ghost left_since = { λ d. LeftSince (changes d.recorded) (bytes d.recorded) };

    ghost clock = { λ d. syncs (changes d.recorded) };

    ghost faults = { λ d. 0 };

    #[tactic(auto, using(crate::proofs::Remembered::gains_none))]
    fn len(&mut self) -> Result<u64, Failed> {
        Ok(self.recorded.bytes().len() as u64)
    }

    #[tactic(auto, using(crate::proofs::Remembered::gains_none))]
    fn read_at(&mut self, at: u64, buf: &mut [u8]) -> Result<usize, Failed> {
        Ok(copy_from(self.recorded.bytes(), at, buf))
    }

    #[tactic(auto, using(crate::proofs::Remembered::gains_none))]
    fn end_reading(&mut self) {}

    fn write_at(&mut self, at: u64, bytes: &[u8]) -> Result<(), Failed> {
        if self.has_room(at, bytes.len()) {
            self.recorded.write(at, bytes, bytes.len());
        } else {
            self.full = true;
        }
        Ok(())
    }

    fn sync(&mut self) -> Result<(), Failed> {
        if !self.full && self.recorded.has_call_room() {
            self.recorded.sync();
        } else {
            self.full = true;
        }
        Ok(())
    }

    ghost reads_now = { λ d tells. reads_now (changes d.recorded) (bytes d.recorded) };

    ghost since_now = { λ d tells. since_now (changes d.recorded) (bytes d.recorded) };
}
