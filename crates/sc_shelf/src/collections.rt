ghost use Rattle.std.specs.Prelude.{◌≡◌, ◌++◌, ◌∷◌, [], not, length, filter, find, option_map, IfOk};
ghost use Rattle.sc_history.specs.Content.{is_called};
ghost use Rattle.sc_shelf.specs.Collections.{collection_of};

use sc_base::Text;
use sc_cut::Cut;
use sc_json::Json;
use std::alloc::{AllocError, Global};
use std::marker::Model;
use std::sync::Arc;

/// What is kept of a collection: its id, its cut and its document.
#[derive(Drop)]
pub(crate) struct Described {
    pub id: Text,
    pub cut: Cut,
    pub tree: Json,
}

/// A collection that a catalogue has, shared by pointer. Contracts see it as a `Collection`.
#[derive(Drop)]
pub struct KeptCollection {
    inner: Arc<Described>,
}

impl Model for KeptCollection {
    ghost use Rattle.std.specs.Arc.{arc_value};
    ghost use Rattle.sc_history.specs.Content.{Collection};
    ghost use Rattle.std.specs.Coded.{codes};
    ghost use Rattle.sc_json.specs.contracts.tree.Json as e;

    ghost Value = { Collection };

    ghost coded = { Prim.hlevel (codes, e.the_row.coded) };

    ghost use Rattle.sc_shelf.specs.Collections.{collection_of};

    ghost view = { λ k. collection_of (arc_value k.inner) };
}

impl KeptCollection {
    /// The collection of these fields, to be shared.
    fn of(alloc: Global, described: Described) -> Result<KeptCollection, AllocError>
        ensures { IfOk result (λ collection. collection ≡ collection_of described) }
    {
        Ok(KeptCollection {
            inner: Arc::new(alloc, described)?,
        })
    }

    /// The same collection by one more pointer.
    fn share(&self) -> Result<KeptCollection, AllocError>
        ensures { IfOk result (λ collection. collection ≡ self.now) }
    {
        Ok(KeptCollection {
            inner: Arc::try_clone(&self.inner)?,
        })
    }

    /// Its id.
    pub fn id(&self) -> &Text
        ensures { result.now ≡ self.now.id }
    {
        &self.inner.id
    }

    /// How it is cut into parts.
    pub fn cut(&self) -> Cut
        ensures { result ≡ self.now.cut }
    {
        self.inner.cut
    }

    /// Its document.
    pub fn tree(&self) -> &Json
        ensures { result.now ≡ self.now.tree }
    {
        &self.inner.tree
    }
}

/// The collections of a catalogue in the order in which they were made, shared as a whole by pointer. Contracts see them as
/// a list of `Collection`.
#[derive(Drop)]
pub struct Collections {
    inner: Arc<Vec<KeptCollection>>,
}

impl Model for Collections {
    ghost use Rattle.std.specs.Prelude.{List};
    ghost use Rattle.std.specs.Arc.{arc_value};
    ghost use Rattle.sc_history.specs.Content.{Collection};
    ghost use Rattle.std.specs.Coded.{codes};
    ghost use Rattle.sc_json.specs.contracts.tree.Json as e;

    ghost Value = { List Collection };

    ghost coded = { Prim.hlevel (codes, e.the_row.coded) };

    ghost view = { λ c. (arc_value c.inner).items };
}

/// Whether a collection has the id.
fn is_called(id: &Text, collection: &KeptCollection) -> bool
    ensures { result ≡ is_called id.now collection.now }
{
    collection.id() == id
}

impl Collections {
    /// No collections.
    pub fn new(alloc: Global) -> Result<Collections, AllocError>
        ensures { IfOk result (λ collections. collections ≡ []) }
    {
        Ok(Collections {
            inner: Arc::new(alloc, Vec::new(alloc))?,
        })
    }

    /// The same collections by one more pointer.
    pub fn share(&self) -> Result<Collections, AllocError>
        ensures { IfOk result (λ collections. collections ≡ self.now) }
    {
        Ok(Collections {
            inner: Arc::try_clone(&self.inner)?,
        })
    }

    /// The collections in the order in which they were made.
    pub fn as_slice(&self) -> &[KeptCollection]
        ensures { result.now ≡ self.now }
    {
        self.inner.as_slice()
    }

    /// The number of collections.
    pub fn len(&self) -> usize
        ensures { result ≡ length self.now }
    {
        self.inner.len()
    }

    /// The collection with the id, if there is one.
    pub fn find(&self, id: &Text) -> Option<&KeptCollection>
        ensures { option_map (λ collection. collection.now) result ≡ find (is_called id.now) self.now }
    {
        for collection in self.as_slice() {
            if is_called(id, collection) {
                return Some(collection);
            }
        }
        None
    }

    /// The collections with one more at the end. The document is copied once, for all snapshots.
    pub fn with(
        &self,
        alloc: Global,
        id: &Text,
        cut: Cut,
        tree: &Json,
    ) -> Result<Collections, AllocError>
        ensures { IfOk result (λ new. new ≡ self.now ++ record { id = id.now; cut = cut; tree = tree.now } ∷ []) }
    {
        let mut new = Vec::with_capacity(alloc, self.len().saturating_add(1))?;
        for collection in self.as_slice() {
            new.push(collection.share()?)?;
        }
        let described = Described {
            id: id.try_clone(alloc)?,
            cut,
            tree: tree.try_clone(alloc)?,
        };
        new.push(KeptCollection::of(alloc, described)?)?;
        Ok(Collections {
            inner: Arc::new(alloc, new)?,
        })
    }

    /// The collections without those with the id.
    pub fn without(&self, alloc: Global, id: &Text) -> Result<Collections, AllocError>
        ensures { IfOk result (λ new. new ≡ filter (λ collection. not (is_called id.now collection)) self.now) }
    {
        let mut new = Vec::with_capacity(alloc, self.len())?;
        for collection in self.as_slice() {
            if !is_called(id, collection) {
                new.push(collection.share()?)?;
            }
        }
        Ok(Collections {
            inner: Arc::new(alloc, new)?,
        })
    }
}
