ghost use Rattle.std.specs.Prelude.{◌≡◌, length, IfOk};
ghost use Rattle.std.specs.Str.{bytes_eq};
ghost use Rattle.sc_part.specs.Version.{IsKept};
ghost use Rattle.sc_shelf.specs.Shelf.{part_of};
ghost use Rattle.sc_shelf.specs.Ticket.{version_of};

use crate::ticket::Ticket;
use crate::version::SharedVersion;
use sc_base::Text;
use sc_bounds::Bounds;
use sc_cut::PartName;
use sc_history::Addition;
use sc_part::PartVersion;
use std::alloc::{AllocError, Global};
use std::marker::Model;
use std::sync::Arc;

/// What is kept of a part: its version, its bounds, the revision from which on its additions are kept, and these additions,
/// the newest first.
#[derive(Drop)]
pub(crate) struct Shelf {
    pub version: SharedVersion,
    pub bounds: Bounds,
    pub kept_from: u64,
    pub additions: Vec<Addition>,
}

/// A part that a catalogue keeps, shared by pointer. Contracts see it as a `Part`.
#[derive(Drop)]
pub struct KeptPart {
    inner: Arc<Shelf>,
}

impl Model for KeptPart {
    ghost use Rattle.std.specs.Arc.{arc_value};
    ghost use Rattle.sc_history.specs.Part.{Part};
    ghost use Rattle.std.specs.Coded.{codes};
    ghost use Rattle.sc_json.specs.contracts.tree.Json as e;

    ghost Value = { Part };

    ghost coded = { Prim.hlevel (codes, e.the_row.coded) };

    ghost use Rattle.sc_part.specs.Version.{IsKept};
    ghost use Rattle.sc_shelf.specs.Shelf.{part_of};

    ghost view = { λ k. part_of (arc_value k.inner) };
}

impl KeptPart {
    /// The part of these fields, to be shared.
    pub(crate) fn of(alloc: Global, shelf: Shelf) -> Result<KeptPart, AllocError>
        ensures { IfOk result (λ part. part ≡ part_of shelf) }
    {
        Ok(KeptPart {
            inner: Arc::new(alloc, shelf)?,
        })
    }

    /// The same part by one more pointer.
    pub(crate) fn share(&self) -> Result<KeptPart, AllocError>
        ensures { IfOk result (λ part. part ≡ self.now) }
    {
        Ok(KeptPart {
            inner: Arc::try_clone(&self.inner)?,
        })
    }

    /// The part's name.
    pub fn name(&self) -> &PartName
        ensures { result.now ≡ self.now.name }
    {
        self.inner.version.get().name()
    }

    /// Whether the part is of the collection.
    pub(crate) fn is_of(&self, collection: &Text) -> bool
        ensures { result ≡ bytes_eq self.now.name.collection collection.now }
    {
        self.name().collection == *collection
    }

    /// The part's version, which has its items: each keeps what items keep, as a geometry that is one, and a place that is
    /// its box.
    pub fn version(&self) -> &PartVersion
        ensures version { result.now ≡ version_of self.now }
        ensures kept { IsKept (version_of self.now) }
    {
        let version = self.inner.version.get();
        // Every version is kept.
        let _name = version.name();
        version
    }

    /// Bounds that cover all items of the part.
    pub fn bounds(&self) -> Bounds
        ensures { result ≡ self.now.bounds }
    {
        self.inner.bounds
    }

    /// A ticket of the part, which shares its version.
    pub fn ticket(&self) -> Result<Ticket, AllocError>
        ensures { IfOk result (λ ticket. ticket ≡ version_of self.now) }
    {
        Ok(Ticket::of(self.inner.version.share()?))
    }

    /// Its fields.
    pub(crate) fn shelf(&self) -> &Shelf
        ensures { part_of result.now ≡ self.now }
    {
        &self.inner
    }
}
