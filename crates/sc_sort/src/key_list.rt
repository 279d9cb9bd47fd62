ghost use Rattle.std.specs.Prelude.{◌≡◌, ◌↔◌, All, SomeIff, IsTrue};
ghost use Rattle.std.specs.List.{AllPass};
ghost use Rattle.sc_sort.specs.Keys.{is_short, IsKept, AreKept};

use crate::value::SortValue;
use sc_base::{Seq, Text};
use std::marker::Model;

/// What an item is ordered by under a sort: a value for each key, and then its collection and its id. A text among the
/// values has at most 128 bytes.
#[derive(Debug, Drop)]
pub struct KeyList {
    values: Seq<SortValue>,
    collection: Text,
    id: Text,
}

impl Model for KeyList {
    ghost use Rattle.sc_sort.specs.Keys.{Keys, AreKept};

    ghost Value = { Keys };

    ghost view = { λ k. record { values = k.values; collection = k.collection; id = k.id } };

    ghost invariant = { λ k. AreKept (record { values = k.values; collection = k.collection; id = k.id }) };
}

/// Whether no value is a text of more than 128 bytes.
fn are_short(values: &[SortValue]) -> bool
    ensures { IsTrue result ↔ AllPass is_short values.now }
{
    values.iter().all(|value| value.is_short())
}

/// What the values keep, told for all of them. It computes nothing.
fn values_keep(values: &[SortValue])
    ensures { All IsKept values.now }
{
    for value in values {
        value.keeps();
    }
}

impl KeyList {
    /// The key list of these values, this collection and this id; none exactly where one of the values is a text of
    /// more than 128 bytes. Takes no memory.
    pub fn of(values: Seq<SortValue>, collection: Text, id: Text) -> Option<KeyList>
        ensures { SomeIff result (AllPass is_short values) (record { values = values; collection = collection; id = id }) }
    {
        values_keep(values.as_slice());
        collection.bytes();
        id.bytes();
        if are_short(values.as_slice()) {
            Some(KeyList {
                values,
                collection,
                id,
            })
        } else {
            None
        }
    }

    /// A value for each key, of which no text has more than 128 bytes, and what every key list keeps.
    pub fn values(&self) -> &[SortValue]
        ensures values { result.now ≡ self.now.values }
        ensures short { AllPass is_short self.now.values }
        ensures kept { AreKept self.now }
    {
        self.values.as_slice()
    }

    /// The item's collection.
    pub fn collection(&self) -> &Text
        ensures { result.now ≡ self.now.collection }
    {
        &self.collection
    }

    /// The item's id.
    pub fn id(&self) -> &Text
        ensures { result.now ≡ self.now.id }
    {
        &self.id
    }
}
