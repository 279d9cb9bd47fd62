use crate::Sealed;
use std::alloc::{AllocError, Global};

/// Who takes the records of a journal while it is opened, one after the other.
pub trait TakeRecords {
    ghost use Rattle.std.specs.Prelude.{ℕ, List, ◌++◌, ◌∷◌, [], IfOk};

    /// The records that it took.
    ghost took: { Self → List (List ℕ) → Type 0 };

    /// Takes the next record, of this payload. It fails only where memory is wanting.
    fn take(&mut self, alloc: Global, payload: &[u8]) -> Result<(), AllocError>
        ensures { (records : List (List ℕ)) → took self.old records → IfOk result (λ _. took self.new (records ++ payload.now ∷ [])) };
}

/// Keeps the records that it takes.
#[derive(Drop)]
pub(crate) struct Collector {
    pub records: Vec<Sealed>,
}

impl TakeRecords for Collector {
    ghost use Rattle.std.specs.Prelude.{◌≡◌};

    ghost took = { λ c records. c.records.items ≡ records };

    fn take(&mut self, alloc: Global, payload: &[u8]) -> Result<(), AllocError> {
        self.records.push(Sealed::of(alloc, payload)?)?;
        Ok(())
    }
}
