ghost use Rattle.std.specs.Prelude.{◌≡◌, ◌+◌, ℕ, [], length, option_map, IfOk, IfErr, OnErr};
ghost use Rattle.sc_load.specs.Load.{IsWellFormed};
ghost use Rattle.sc_history.specs.Part.{lookup};
ghost use Rattle.sc_history.specs.Sound.{Sound};
ghost use Rattle.sc_history.specs.Taken.{Refuses};
ghost use Rattle.sc_shelf.specs.Ticket.{Hull};
ghost use Rattle.sc_catalog.specs.Entries.{IsTightOf, loads_of};
ghost use Rattle.sc_catalog.specs.Holdings.{IsPublished};

mod views;

use crate::entry::{Entry, Published};
use crate::indexed::index_load;
use crate::next::prepare;
use sc_base::Seq;
use sc_bounds::Bounds;
use sc_cut::PartName;
use sc_index::ItemIndex;
use sc_load::{Load, LoadFault};
use sc_shelf::{Collections, Parts};
use std::alloc::{AllocError, Global};
use std::marker::Model;

/// A catalogue of items: the history of the loads that it took, and the collections and the parts that these make.
#[derive(Drop)]
pub struct Catalogue {
    history: Vec<Entry>,
    bytes: u64,
    collections: Collections,
    parts: Parts,
    index: ItemIndex,
}

impl Model for Catalogue {
    ghost use Rattle.std.specs.Coded.{codes};
    ghost use Rattle.sc_json.specs.contracts.tree.Json as e;
    ghost use Rattle.sc_catalog.specs.Holdings.{Holdings};

    ghost Value = { Holdings };

    ghost coded = { Prim.hlevel (codes, e.the_row.coded) };

    ghost use Rattle.sc_catalog.specs.Kept.{IsKept};

    ghost view = { λ c. record { entries = c.history.items; collections = c.collections; parts = c.parts } };

    ghost invariant = { λ c. IsKept c.history.items c.bytes c.collections c.parts c.index };
}

impl Catalogue {
    /// A catalogue that has taken no load.
    pub fn new(alloc: Global) -> Result<Catalogue, AllocError>
        ensures { IfOk result (λ catalogue. catalogue ≡ record { entries = []; collections = []; parts = [] }) }
    {
        Ok(Catalogue {
            history: Vec::new(alloc),
            bytes: 0,
            collections: Collections::new(alloc)?,
            parts: Parts::new(alloc)?,
            index: ItemIndex::new(alloc),
        })
    }

    /// The number of loads that the catalogue took. The clause `sound` is what every catalogue keeps.
    pub fn revision(&self) -> u64
        ensures revision { result ≡ length self.now.entries }
        ensures sound { Sound (loads_of self.now.entries) self.now.collections self.now.parts }
    {
        self.history.len() as u64
    }

    /// The bounds of the part with the name, if there is one.
    pub fn bounds_of(&self, name: &PartName) -> Option<Bounds>
        ensures { result ≡ option_map (λ part. part.bounds) (lookup name.now self.now.parts) }
    {
        match self.parts.find(name) {
            Some(part) => Some(part.bounds()),
            None => None,
        }
    }

    /// Takes a load of the publisher with the number `by`, or refuses it with the first fault that holds, in the order of
    /// `LoadFault`. The load is well-formed, as what the `prepare_` calls give is. It tells the revision, and the parts that
    /// the load touched and left. All memory is taken before the first change, and a refusal leaves the catalogue as it was,
    /// also where memory is wanting. Hulls of tickets that could be installed still can.
    pub fn publish(&mut self, alloc: Global, by: u32, load: Load) -> Result<Published, LoadFault>
        requires { IsWellFormed load }
        ensures ok { IfOk result (IsPublished by load self.old self.new) }
        ensures fault { IfErr result (Refuses (loads_of self.old.entries) load) }
        ensures err { OnErr result (self.new ≡ self.old) }
        ensures hulls { (hull : Hull) → IsTightOf self.old.entries hull → IsTightOf self.new.entries hull }
    {
        let revision = self.history.len() as u64 + 1;
        let next = prepare(
            alloc,
            revision,
            self.bytes,
            &self.collections,
            &self.parts,
            &self.index,
            &load,
        )?;
        self.history.reserve(1)?;
        // The last to take memory, since it gives its room back where that is wanting.
        self.index.reserve(alloc, load.collection(), &next.come)?;
        index_load(&mut self.index, &load, next.come);
        self.bytes = next.bytes;
        self.collections = next.collections;
        self.parts = next.parts;
        // Room was made above, so this isn't refused.
        self.history.push(Entry { by, load })?;
        Ok(Published {
            revision,
            touched: Seq::of(next.touched),
        })
    }
}
