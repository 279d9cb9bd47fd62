ghost use Rattle.std.specs.Prelude.{◌≡◌, Some, None, IfOk, MatchOption};
ghost use Rattle.sc_json.specs.Compact.{compact};
ghost use Rattle.sc_json.specs.Good.{Good};
ghost use Rattle.sc_item.specs.Trees.{properties_in};
ghost use Rattle.sc_item.specs.Feature.{IsPlaceOf, IsKept};
ghost use Rattle.sc_item.specs.Made.{IsMade};

use crate::parts::Parts;
use crate::shape::place_of;
use crate::whole::into_properties;
use sc_base::{Seq, Text};
use sc_geom::{Geom, GridBox};
use sc_json::{Json, Member, write_json};
use sc_time::Instant;
use std::alloc::{AllocError, Global};
use std::marker::Model;
use std::snapshot::Snapshot;

/// An item of a collection. Contracts see it with its whole tree. What is held of the tree are the document, which is its
/// compact text and spells it, and the members of `properties`.
#[derive(Drop)]
pub struct Item {
    collection: Text,
    id: Text,
    start: Instant,
    end: Instant,
    geom: Option<Geom>,
    place: Option<GridBox>,
    properties: Seq<Member>,
    doc: Text,
    tree: Snapshot<Json>,
}

impl Model for Item {
    ghost use Rattle.sc_item.specs.Feature.{Feature};
    ghost use Rattle.std.specs.Coded.{codes};
    ghost use Rattle.sc_json.specs.contracts.tree.Json as e;

    ghost Value = { Feature };

    ghost coded = { Prim.hlevel (codes, e.the_row.coded) };

    ghost use Rattle.std.specs.Prelude.{◌≡◌};
    ghost use Rattle.sc_item.specs.Feature.{IsKept};
    ghost use Rattle.sc_item.specs.Trees.{properties_in};

    ghost view = { λ i. record {
      collection = i.collection;
      id = i.id;
      start = i.start;
      end = i.end;
      geom = i.geom;
      place = i.place;
      tree = i.tree.value;
      doc = i.doc;
    } };

    ghost invariant = { λ i. IsKept (record {
      collection = i.collection;
      id = i.id;
      start = i.start;
      end = i.end;
      geom = i.geom;
      place = i.place;
      tree = i.tree.value;
      doc = i.doc;
    }) × (i.properties ≡ properties_in i.tree.value) };
}

impl Item {
    /// The item of these parts, whose tree is this one.
    pub(crate) fn of(
        alloc: Global,
        collection: &Text,
        parts: Parts,
        tree: Json,
    ) -> Result<Item, AllocError>
        requires { Good tree }
        ensures { IfOk result (IsMade collection.now parts tree) }
    {
        let collection = collection.try_clone(alloc)?;
        let doc = write_json(alloc, &tree)?;
        let seen = Snapshot::of(&tree);
        let properties = into_properties(alloc, tree);
        let Parts { id, times, geom } = parts;
        let place = place_of(&geom);
        Ok(Item {
            collection,
            id,
            start: times.start,
            end: times.end,
            geom,
            place,
            properties,
            doc,
            tree: seen,
        })
    }

    /// The collection's id.
    pub fn collection(&self) -> &Text
        ensures { result.now ≡ self.now.collection }
    {
        &self.collection
    }

    /// The item's id.
    pub fn id(&self) -> &Text
        ensures { result.now ≡ self.now.id }
    {
        &self.id
    }

    /// Where its time begins.
    pub fn start(&self) -> Instant
        ensures { result ≡ self.now.start }
    {
        self.start
    }

    /// Where its time ends.
    pub fn end(&self) -> Instant
        ensures { result ≡ self.now.end }
    {
        self.end
    }

    /// The geometry, where it isn't null.
    pub fn geom(&self) -> Option<&Geom>
        ensures { MatchOption result (self.now.geom ≡ None) (λ geom. self.now.geom ≡ Some geom.now) }
    {
        match &self.geom {
            Some(geom) => Some(geom),
            None => None,
        }
    }

    /// The smallest box of the geometry.
    pub fn place(&self) -> Option<GridBox>
        ensures place { result ≡ self.now.place }
        ensures smallest { IsPlaceOf self.now.geom self.now.place }
        ensures kept { IsKept self.now }
    {
        self.place
    }

    /// The members of `properties`, in their order.
    pub fn properties(&self) -> &[Member]
        ensures { result.now ≡ properties_in self.now.tree }
    {
        self.properties.as_slice()
    }

    /// The document: the compact text of the tree.
    pub fn doc(&self) -> &Text
        ensures doc { result.now ≡ self.now.doc }
        ensures kept { IsKept self.now }
    {
        &self.doc
    }
}
