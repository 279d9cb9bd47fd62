ghost use Rattle.std.specs.Prelude.{◌≡◌, ◌++◌, ◌∷◌, [], List, IfOk, MatchBool};
ghost use Rattle.sc_item.specs.Feature.{Feature};
ghost use Rattle.sc_item.specs.Names.{AreApart};
ghost use Rattle.stacd.specs.Names.{AreNamesOf};

use sc_item::Item;
use sc_page::Text;
use std::alloc::{AllocError, Global};
use std::collections::HashSet;

/// The name of an item.
#[derive(Debug, Drop, PartialEq, Eq, Hash)]
struct Name {
    collection: Text,
    id: Text,
}

/// The names of items, no two of which have one name. It has copies of them.
#[derive(Drop)]
pub(crate) struct Names {
    names: HashSet<Name>,
}

/// The name of an item.
fn name_of(alloc: Global, item: &Item) -> Result<Name, AllocError>
    ensures collection { IfOk result (λ name. name.collection ≡ item.now.collection) }
    ensures id { IfOk result (λ name. name.id ≡ item.now.id) }
{
    Ok(Name {
        collection: item.collection().try_clone(alloc)?,
        id: item.id().try_clone(alloc)?,
    })
}

impl Names {
    /// The names of no items.
    pub fn new(alloc: Global) -> Names
        ensures { AreNamesOf result [] }
    {
        Names {
            names: HashSet::new(alloc),
        }
    }

    /// Adds the name of an item, and answers whether it is new.
    pub fn insert(&mut self, alloc: Global, item: &Item) -> Result<bool, AllocError>
        ensures { IfOk result (λ new. (items : List Feature) → AreNamesOf self.old items → MatchBool new (AreNamesOf self.new (items ++ item.now ∷ [])) (AreApart (items ++ item.now ∷ []) → ⊥)) }
    {
        let new = self.names.insert(name_of(alloc, item)?)?;
        Ok(new)
    }
}
