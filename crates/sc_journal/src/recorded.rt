use crate::pieces::{append_within, push_within, put_within};
use std::alloc::{AllocError, Global};

/// A call that changed bytes in memory.
#[derive(Clone, Copy, Debug)]
pub(crate) enum Call {
    /// So many bytes were to be written at a place, when there were so many in all.
    WriteAt { at: u64, size: usize, had: usize },
    /// What was written before is stored.
    Sync,
}

/// Bytes in memory, with a record of the calls that changed them and of what they were before each write.
#[derive(Drop)]
pub(crate) struct Recorded {
    bytes: Vec<u8>,
    calls: Vec<Call>,
    earlier: Vec<u8>,
}

impl Recorded {
    ghost use Rattle.std.specs.Prelude.{◌≡◌, ◌≤◌, ◌<◌, ◌+◌, ◌∷◌, [], length, IfOk, OnOk, IsTrue, ◌↔◌, vec_capacity};
    ghost use Rattle.sc_journal.specs.Disk.{Written};
    ghost use Rattle.sc_journal.specs.Images.{Write, Synced};
    ghost use Rattle.sc_journal.specs.Recorded.{HasRoom, bytes, changes};

    /// These bytes, stored. Takes no memory.
    pub(crate) fn new(alloc: Global, file: Vec<u8>) -> Recorded
        ensures bytes { bytes result ≡ file.items }
        ensures changes { changes result ≡ [] }
    {
        Recorded {
            bytes: file,
            calls: Vec::new(alloc),
            earlier: Vec::new(alloc),
        }
    }

    /// These bytes, stored, with room for so many bytes and calls, and for so many bytes before them.
    pub(crate) fn with_room(
        alloc: Global,
        file: Vec<u8>,
        room: usize,
    ) -> Result<Recorded, AllocError>
        ensures bytes { IfOk result (λ r. bytes r ≡ file.items) }
        ensures changes { IfOk result (λ r. changes r ≡ []) }
        ensures for_bytes { IfOk result (λ r. room ≤ vec_capacity r.bytes) }
        ensures for_calls { IfOk result (λ r. vec_capacity r.calls ≡ room) }
        ensures for_earlier { IfOk result (λ r. vec_capacity r.earlier ≡ room) }
    {
        let mut file = file;
        if file.len() < room {
            file.reserve(room - file.len())?;
        }
        Ok(Recorded {
            bytes: file,
            calls: Vec::with_capacity(alloc, room)?,
            earlier: Vec::with_capacity(alloc, room)?,
        })
    }

    /// The bytes.
    pub(crate) fn bytes(&self) -> &[u8]
        ensures { result.now ≡ bytes self.now }
    {
        self.bytes.as_slice()
    }

    /// There is room for one call more.
    pub(crate) fn has_call_room(&self) -> bool
        ensures { IsTrue result ↔ (length self.now.calls.items < vec_capacity self.now.calls) }
    {
        self.calls.len() < self.calls.capacity()
    }

    /// There is room for one call more, after which there are at most so many bytes.
    pub(crate) fn has_room(&self, end: usize) -> bool
        ensures { IsTrue result ↔ HasRoom end self.now }
    {
        self.has_call_room()
            && end <= self.bytes.capacity()
            && self.bytes.len() <= self.earlier.capacity() - self.earlier.len()
    }

    /// Finds room for one call more, a write of so many bytes at a place.
    pub(crate) fn reserve(&mut self, at: u64, size: usize) -> Result<(), AllocError>
        ensures room { OnOk result (HasRoom (at + size) self.new) }
        ensures bytes { bytes self.new ≡ bytes self.old }
        ensures changes { changes self.new ≡ changes self.old }
    {
        let end = at.checked_add(size as u64).ok_or(AllocError)? as usize;
        if self.bytes.len() < end {
            self.bytes.reserve(end - self.bytes.len())?;
        }
        self.calls.reserve(1)?;
        self.earlier.reserve(self.bytes.len())
    }

    /// Writes a piece at a place, of so many bytes that were to be written. Takes no memory.
    pub(crate) fn write(&mut self, at: u64, piece: &[u8], size: usize)
        requires room { HasRoom (at + length piece.now) self.old }
        ensures written { Written at piece.now (bytes self.old) (bytes self.new) }
        ensures changes { changes self.new ≡ Write at size (bytes self.old) ∷ changes self.old }
    {
        let had = self.bytes.len();
        let from = self.earlier.len();
        append_within(&mut self.earlier, &self.bytes);
        push_within(&mut self.calls, Call::WriteAt { at, size, had });
        put_within(&mut self.bytes, at as usize, piece, &self.earlier[from..]);
    }

    /// Stores what was written. Takes no memory.
    pub(crate) fn sync(&mut self)
        requires room { length self.old.calls.items < vec_capacity self.old.calls }
        ensures bytes { bytes self.new ≡ bytes self.old }
        ensures changes { changes self.new ≡ Synced ∷ changes self.old }
    {
        push_within(&mut self.calls, Call::Sync);
    }
}
