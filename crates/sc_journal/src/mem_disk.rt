use crate::Disk;
use crate::failing::Failing;
use crate::pieces::copy_from;
use crate::recorded::Recorded;
use sc_outside::Failed;
use std::alloc::Global;

/// A disk in memory, which keeps a record of its calls. The calls numbered in `failing`, from 0, fail, and so does one that
/// finds no memory.
#[derive(Drop)]
pub struct MemDisk {
    recorded: Recorded,
    failing: Failing,
    torn: usize,
}

impl MemDisk {
    ghost use Rattle.std.specs.Prelude.{◌≡◌, []};
    ghost use Rattle.sc_journal.specs.Memory.{disk_bytes, disk_changes, disk_calls, disk_failing, disk_faults, disk_torn};

    /// A disk on which these bytes are stored. A write that is to fail writes nothing. Takes no memory.
    pub fn new(alloc: Global, bytes: Vec<u8>, failing: Vec<u64>) -> MemDisk
        ensures bytes { disk_bytes result ≡ bytes.items }
        ensures changes { disk_changes result ≡ [] }
        ensures failing { disk_failing result ≡ failing.items }
        ensures calls { disk_calls result ≡ 0 }
        ensures faults { disk_faults result ≡ 0 }
        ensures torn { disk_torn result ≡ 0 }
    {
        MemDisk {
            recorded: Recorded::new(alloc, bytes),
            failing: Failing {
                to_fail: failing,
                calls: 0,
                faults: 0,
            },
            torn: 0,
        }
    }

    /// The disk, where a write that is to fail writes the first `torn` of its bytes, or all where there are fewer.
    pub fn tearing(self, torn: usize) -> MemDisk
        ensures bytes { disk_bytes result ≡ disk_bytes self }
        ensures changes { disk_changes result ≡ disk_changes self }
        ensures failing { disk_failing result ≡ disk_failing self }
        ensures calls { disk_calls result ≡ disk_calls self }
        ensures faults { disk_faults result ≡ disk_faults self }
        ensures torn { disk_torn result ≡ torn }
    {
        let MemDisk {
            recorded,
            failing,
            ..
        } = self;
        MemDisk {
            recorded,
            failing,
            torn,
        }
    }

    /// The bytes that reads give.
    pub fn bytes(&self) -> &[u8]
        ensures { result.now ≡ disk_bytes self.now }
    {
        self.recorded.bytes()
    }
}

impl Disk for MemDisk {
    ghost use Rattle.std.specs.Prelude.{⊤};
    ghost use Rattle.sc_journal.specs.Images.{MayBeLeft, LeftSince, syncs, reads_now, since_now};
    ghost use Rattle.sc_journal.specs.Recorded.{bytes, changes};

    ghost tells = { λ d. ⊤ };

    ghost reads = { λ d. bytes d.recorded };

    ghost may_leave = { λ d. MayBeLeft (changes d.recorded) (bytes d.recorded) };

    ghost left_since = { λ d. LeftSince (changes d.recorded) (bytes d.recorded) };

    ghost clock = { λ d. syncs (changes d.recorded) };

    ghost faults = { λ d. d.failing.faults };

    #[tactic(auto, using(crate::proofs::Remembered::gains_none))]
    fn len(&mut self) -> Result<u64, Failed> {
        self.failing.next()?;
        Ok(self.recorded.bytes().len() as u64)
    }

    #[tactic(auto, using(crate::proofs::Remembered::gains_none))]
    fn read_at(&mut self, at: u64, buf: &mut [u8]) -> Result<usize, Failed> {
        self.failing.next()?;
        Ok(copy_from(self.recorded.bytes(), at, buf))
    }

    #[tactic(auto, using(crate::proofs::Remembered::gains_none))]
    fn end_reading(&mut self) {}

    fn write_at(&mut self, at: u64, bytes: &[u8]) -> Result<(), Failed> {
        match self.failing.next() {
            Ok(()) => {
                if self.recorded.reserve(at, bytes.len()).is_err() {
                    return Err(self.failing.fault());
                }
                self.recorded.write(at, bytes, bytes.len());
                Ok(())
            }
            Err(failed) => {
                if self.recorded.reserve(at, bytes.len()).is_ok() {
                    let front = &bytes[..self.torn.min(bytes.len())];
                    self.recorded.write(at, front, bytes.len());
                }
                Err(failed)
            }
        }
    }

    #[tactic(auto, using(crate::proofs::Remembered::gains_none))]
    fn sync(&mut self) -> Result<(), Failed> {
        self.failing.next()?;
        if self.recorded.reserve(0, 0).is_err() {
            return Err(self.failing.fault());
        }
        self.recorded.sync();
        Ok(())
    }

    ghost reads_now = { λ d tells. reads_now (changes d.recorded) (bytes d.recorded) };

    ghost since_now = { λ d tells. since_now (changes d.recorded) (bytes d.recorded) };
}
