ghost use Rattle.std.specs.Prelude.{◌≡◌, [], length, option_map, IfOk};
ghost use Rattle.sc_history.specs.Part.{lookup};
ghost use Rattle.sc_history.specs.Installs.{AreInstalled, answer};
ghost use Rattle.sc_shelf.specs.Changed.{AreChanged, AreChangesOf, AreWithout};
ghost use Rattle.sc_shelf.specs.Kept.{AreParts};
ghost use Rattle.sc_shelf.specs.Ticket.{version_of};

use crate::change::PartChange;
use crate::install::{install_answer, installed_parts, leaves_bounds};
use crate::kept::KeptPart;
use crate::publish::{changed_parts, parts_without};
use crate::split::split_at;
use crate::ticket::{Ticket, Tight};
use sc_base::Text;
use sc_cut::PartName;
use sc_history::Installed;
use std::alloc::{AllocError, Global};
use std::marker::Model;
use std::sync::Arc;

/// The parts of a catalogue, whose names rise, shared as a whole by pointer. Contracts see them as a list of `Part`.
#[derive(Drop)]
pub struct Parts {
    inner: Arc<Vec<KeptPart>>,
}

impl Model for Parts {
    ghost use Rattle.std.specs.Prelude.{List};
    ghost use Rattle.std.specs.Arc.{arc_value};
    ghost use Rattle.sc_history.specs.Part.{Part};
    ghost use Rattle.sc_shelf.specs.Kept.{AreParts};
    ghost use Rattle.std.specs.Coded.{codes};
    ghost use Rattle.sc_json.specs.contracts.tree.Json as e;

    ghost Value = { List Part };

    ghost coded = { Prim.hlevel (codes, e.the_row.coded) };

    ghost view = { λ p. (arc_value p.inner).items };

    ghost invariant = { λ p. AreParts (arc_value p.inner).items };
}

impl Parts {
    /// No parts.
    pub fn new(alloc: Global) -> Result<Parts, AllocError>
        ensures { IfOk result (λ parts. parts ≡ []) }
    {
        Ok(Parts {
            inner: Arc::new(alloc, Vec::new(alloc))?,
        })
    }

    /// The same parts by one more pointer.
    pub fn share(&self) -> Result<Parts, AllocError>
        ensures { IfOk result (λ parts. parts ≡ self.now) }
    {
        Ok(Parts {
            inner: Arc::try_clone(&self.inner)?,
        })
    }

    /// The parts in the order of their names.
    pub fn as_slice(&self) -> &[KeptPart]
        ensures value { result.now ≡ self.now }
        ensures kept { AreParts self.now }
    {
        self.inner.as_slice()
    }

    /// The number of parts.
    pub fn len(&self) -> usize
        ensures { result ≡ length self.now }
    {
        self.inner.len()
    }

    /// The part with the name, if there is one, by a binary search.
    pub fn find(&self, name: &PartName) -> Option<&KeptPart>
        ensures { option_map (λ part. part.now) result ≡ lookup name.now self.now }
    {
        split_at(self.as_slice(), name).here
    }

    /// The parts after the changes that a load of this revision makes. A new list is made beside this one: of a part that
    /// doesn't change a pointer is copied, and of one that does pointers to its items.
    pub fn with_changes(
        &self,
        alloc: Global,
        revision: u64,
        changes: &[PartChange],
    ) -> Result<Parts, AllocError>
        requires { AreChangesOf self.now changes.now }
        ensures { IfOk result (λ new. AreChanged revision changes.now self.now new) }
    {
        let parts = changed_parts(alloc, revision, changes, self.as_slice())?;
        Ok(Parts {
            inner: Arc::new(alloc, parts)?,
        })
    }

    /// The parts without those of a collection, which goes: a new list beside this one, of pointers alone.
    pub fn without_collection(&self, alloc: Global, collection: &Text) -> Result<Parts, AllocError>
        ensures { IfOk result (λ new. AreWithout collection.now self.now new) }
    {
        let parts = parts_without(alloc, self.as_slice(), collection)?;
        Ok(Parts {
            inner: Arc::new(alloc, parts)?,
        })
    }

    /// A ticket of the part with the name, if there is one. It shares the part's version.
    pub fn look(&self, name: &PartName) -> Result<Option<Ticket>, AllocError>
        ensures { IfOk result (λ ticket. ticket ≡ option_map version_of (lookup name.now self.now)) }
    {
        match self.find(name) {
            None => Ok(None),
            Some(part) => Ok(Some(part.ticket()?)),
        }
    }

    /// The parts after an install of a hull: a new list beside this one, of pointers alone, or the same list where no bounds
    /// change.
    pub fn with_install(&self, alloc: Global, tight: &Tight) -> Result<Parts, AllocError>
        ensures { IfOk result (λ new. AreInstalled tight.now.name tight.now.stamp tight.now.bounds self.now new) }
    {
        // Nothing is copied where no bounds change.
        if leaves_bounds(self.as_slice(), tight) {
            return self.share();
        }
        let parts = installed_parts(alloc, self.as_slice(), tight)?;
        Ok(Parts {
            inner: Arc::new(alloc, parts)?,
        })
    }

    /// What an install of a hull answers.
    pub fn install_answer(&self, tight: &Tight) -> Installed
        ensures { result ≡ answer tight.now.stamp (lookup tight.now.name self.now) }
    {
        install_answer(self.as_slice(), tight)
    }
}
