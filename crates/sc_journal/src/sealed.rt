ghost use Rattle.std.specs.Prelude.{◌≡◌, ◌<◌, ◌^◌, length, IfOk};
ghost use Rattle.sc_journal.specs.Format.{behind_gate};

use std::alloc::{AllocError, Global};
use std::marker::Model;

/// The length of a record's length, in bytes.
pub const LENGTH_BYTES: usize = 8;

/// The payload of a record, which contracts see as its bytes, ready to be appended without memory.
#[derive(Debug, Drop)]
pub struct Sealed {
    // The length, the payload, and a closed gate.
    bytes: Vec<u8>,
}

impl Model for Sealed {
    ghost use Rattle.std.specs.Prelude.{◌≡◌, List, ℕ};
    ghost use Rattle.sc_journal.specs.Format.{behind_gate, payload_in};

    ghost Value = { List ℕ };

    ghost view = { λ s. payload_in s.bytes.items };

    ghost invariant = { λ s. s.bytes.items ≡ behind_gate (payload_in s.bytes.items) };
}

impl Sealed {
    /// A record with a copy of this payload.
    pub fn of(alloc: Global, payload: &[u8]) -> Result<Sealed, AllocError>
        ensures { IfOk result (λ s. s ≡ payload.now) }
    {
        let mut bytes = Vec::with_capacity(alloc, payload.len() + LENGTH_BYTES + 1)?;
        bytes.extend_from_slice(&(payload.len() as u64).to_be_bytes())?;
        bytes.extend_from_slice(payload)?;
        bytes.push(0)?;
        Ok(Sealed { bytes })
    }

    /// The payload.
    pub fn payload(&self) -> &[u8]
        ensures { result.now ≡ self.now }
    {
        &self.bytes[LENGTH_BYTES..self.bytes.len() - 1]
    }

    /// What is written behind a closed gate to append the record.
    pub(crate) fn bytes(&self) -> &[u8]
        ensures bytes { result.now ≡ behind_gate self.now }
        ensures fits { length self.now < 2 ^ 63 }
    {
        self.bytes.as_slice()
    }
}
