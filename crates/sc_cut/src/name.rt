ghost use Rattle.std.specs.Prelude.{◌≡◌, IfOk};

use crate::cut::Cut;
use sc_base::Text;
use std::alloc::{AllocError, Global};

/// The name of a part of a collection. Names are ordered by collection, then by cut, then by key.
#[derive(Debug, Drop, PartialEq, Eq, PartialOrd, Ord)]
pub struct PartName {
    /// The collection's id.
    pub collection: Text,
    /// The collection's cut.
    pub cut: Cut,
    /// The key that [`key_of`](crate::key_of) gives for the starts of the part's items.
    pub key: i32,
}

impl PartName {
    /// A copy of the name.
    pub fn try_clone(&self, alloc: Global) -> Result<PartName, AllocError>
        ensures { IfOk result (λ name. name ≡ self.now) }
    {
        Ok(PartName {
            collection: self.collection.try_clone(alloc)?,
            cut: self.cut,
            key: self.key,
        })
    }
}
