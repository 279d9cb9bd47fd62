ghost use Rattle.std.specs.Prelude.{◌≡◌, ◌+◌, ◌-◌, ◌^◌, ◌++◌, ◌≤◌, min, map, find, length, option_map, slice_get, IfOk, OnErr, OnOk};
ghost use Rattle.std.specs.Arc.{arc_value};
ghost use Rattle.sc_part.specs.Scan.{shared};
ghost use Rattle.sc_history.specs.Content.{is_called, item_in};
ghost use Rattle.sc_history.specs.Views.{Stood};
ghost use Rattle.sc_shelf.specs.Kept.{all_items};
ghost use Rattle.sc_shelf.specs.Ticket.{version_of};

use crate::collections::Collections;
use crate::find::find_item;
use crate::kept::KeptPart;
use crate::parts::Parts;
use sc_base::{Seq, Text};
use sc_bounds::Bounds;
use sc_cut::Cut;
use sc_item::Item;
use sc_json::Json;
use sc_outside::Steps;
use sc_part::PartVersion;
use std::alloc::{AllocError, Global};
use std::marker::Model;
use std::sync::Arc;
use std::sync::ledger::Ledger;

/// What a catalogue had at a revision: its collections and its parts, which never change in it. It has one pointer to each
/// of the two lists. Contracts see it as a `Snap`, and some history had it.
#[derive(Drop)]
pub struct Snapshot {
    revision: u64,
    collections: Collections,
    parts: Parts,
}

impl Model for Snapshot {
    ghost use Rattle.sc_history.specs.Views.{Snap};
    ghost use Rattle.std.specs.Coded.{codes};
    ghost use Rattle.sc_json.specs.contracts.tree.Json as e;

    ghost Value = { Snap };

    ghost coded = { Prim.hlevel (codes, e.the_row.coded) };

    ghost use Rattle.sc_history.specs.Views.{Stood};

    ghost view = { λ s. record { revision = s.revision; collections = s.collections; parts = s.parts } };

    ghost invariant = { λ s. Stood (record { revision = s.revision; collections = s.collections; parts = s.parts }) };
}

/// Puts pointers to the same items at the end.
fn push_items(all: &mut Vec<Arc<Item>>, items: &[Arc<Item>]) -> Result<(), AllocError>
    ensures { OnOk result (shared all.new.items ≡ shared all.old.items ++ shared items.now) }
{
    for item in items {
        all.push(Arc::try_clone(item)?)?;
    }
    Ok(())
}

/// The number of the items of all parts; 2^64 - 1 stands for every greater number.
fn count_items(parts: &[KeptPart]) -> u64
    ensures { result ≡ min (length (all_items parts.now)) (2 ^ 64 - 1) }
{
    let mut count: u64 = 0;
    for part in parts {
        count = count.saturating_add(part.version().len());
    }
    count
}

impl Snapshot {
    /// The snapshot of a revision at which a history had these collections and parts.
    pub fn of(revision: u64, collections: Collections, parts: Parts) -> Snapshot
        requires { Stood (record { revision = revision; collections = collections; parts = parts }) }
        ensures { result ≡ record { revision = revision; collections = collections; parts = parts } }
    {
        Snapshot {
            revision,
            collections,
            parts,
        }
    }

    /// The number of loads that the catalogue had taken. The clause `stood` is what every snapshot keeps.
    pub fn revision(&self) -> u64
        ensures revision { result ≡ self.now.revision }
        ensures stood { Stood self.now }
    {
        self.revision
    }

    /// The document of the collection with the id, if there is one.
    pub fn collection(&self, id: &Text) -> Option<&Json>
        ensures { option_map (λ tree. tree.now) result ≡ option_map (λ c. c.tree) (find (is_called id.now) self.now.collections) }
    {
        match self.collections.find(id) {
            Some(collection) => Some(collection.tree()),
            None => None,
        }
    }

    /// How the collection with the id is cut, if there is one.
    pub fn cut_of(&self, id: &Text) -> Option<Cut>
        ensures { result ≡ option_map (λ c. c.cut) (find (is_called id.now) self.now.collections) }
    {
        match self.collections.find(id) {
            Some(collection) => Some(collection.cut()),
            None => None,
        }
    }

    /// Copies of the documents of all collections, in the order in which they were made.
    pub fn collections(&self, alloc: Global) -> Result<Seq<Json>, AllocError>
        ensures { IfOk result (λ trees. trees ≡ map (λ c. c.tree) self.now.collections) }
    {
        let mut trees = Vec::with_capacity(alloc, self.collections.len())?;
        for collection in self.collections.as_slice() {
            trees.push(collection.tree().try_clone(alloc)?)?;
        }
        Ok(Seq::of(trees))
    }

    /// The collection's item with the id, if there is one. It takes the time of a search by name, and of a search among
    /// digests of ids in each part of the collection.
    pub fn find(&self, collection: &Text, id: &Text) -> Option<&Arc<Item>>
        ensures { option_map (λ item. arc_value item.now) result ≡ item_in (all_items self.now.parts) collection.now id.now }
    {
        find_item(self.parts.as_slice(), collection, id)
    }

    /// Pointers to all items, part by part in the order of names, and those of a part in the order of a scan. It counts as
    /// one step for each part, and one more for each item. Where memory is wanting, at most so many are counted.
    pub fn items<L: Ledger>(
        &self,
        alloc: Global,
        steps: &mut Steps<L>,
    ) -> Result<Seq<Arc<Item>>, AllocError>
        ensures items { IfOk result (λ items. shared items ≡ all_items self.now.parts) }
        ensures steps { OnOk result (steps.new ≡ steps.old + length self.now.parts + length (all_items self.now.parts)) }
        ensures most { OnErr result (steps.new ≤ steps.old + length self.now.parts + length (all_items self.now.parts)) }
    {
        let mut all = Vec::with_capacity(alloc, self.item_count() as usize)?;
        for part in self.parts.as_slice() {
            push_items(&mut all, part.version().scan(steps))?;
        }
        Ok(Seq::of(all))
    }

    /// The number of items; 2^64 - 1 stands for every greater number.
    pub fn item_count(&self) -> u64
        ensures { result ≡ min (length (all_items self.now.parts)) (2 ^ 64 - 1) }
    {
        count_items(self.parts.as_slice())
    }

    /// The number of parts.
    pub fn part_count(&self) -> u64
        ensures { result ≡ length self.now.parts }
    {
        self.parts.len() as u64
    }

    /// The parts in the order of their names.
    pub fn parts(&self) -> &[KeptPart]
        ensures { result.now ≡ self.now.parts }
    {
        self.parts.as_slice()
    }

    /// The part at a place in the order of names, with its bounds; none past the end.
    pub fn part(&self, n: u64) -> Option<(&PartVersion, Bounds)>
        ensures version { option_map (λ found. found.0.now) result ≡ option_map version_of (slice_get self.now.parts n) }
        ensures bounds { option_map (λ found. found.1) result ≡ option_map (λ part. part.bounds) (slice_get self.now.parts n) }
    {
        match self.parts.as_slice().get(n as usize) {
            Some(part) => Some((part.version(), part.bounds())),
            None => None,
        }
    }
}
