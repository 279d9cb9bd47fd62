ghost use Rattle.std.specs.Prelude.{◌≡◌};
ghost use Rattle.sc_sort.specs.Named.{is_time, named, property_named, seen, unprefixed};

use crate::words::{collection_name, datetime_name, geometry_name, id_name, properties_prefix};

/// The bytes of the prefix `properties.`.
const PREFIX: usize = 11;

/// What a name asks for of an item.
#[derive(Clone, Copy, Debug)]
pub enum Queryable<'a> {
    /// Its id.
    Id,
    /// The id of its collection.
    Collection,
    /// Its geometry.
    Geometry,
    /// Its time, which every item has.
    Time,
    /// The member of its `properties` with this name.
    Member(&'a str),
}

/// The name behind one prefix `properties.`, where it has one.
fn unprefixed(name: &str) -> &str
    ensures { result.now ≡ unprefixed name.now }
{
    let prefix = properties_prefix();
    match name.split_at_checked(PREFIX) {
        Some((front, behind)) => { if front == prefix { behind } else { name } }
        None => name,
    }
}

/// What the name of a property asks for.
fn property_named(name: &str) -> Queryable<'_>
    ensures { seen result ≡ property_named name.now }
{
    if name == datetime_name() {
        Queryable::Time
    } else {
        Queryable::Member(name)
    }
}

/// What a name asks for of an item: `id`, `collection` and `geometry` are those of the item. Any other name is that of a
/// property, with or without one prefix `properties.`: `datetime` is the item's time, and each other name a member of
/// `properties`. So `properties.id` is the member `id` of `properties`.
#[tactic(auto, unfolding(crate::specs::Named::named))]
pub fn named(name: &str) -> Queryable<'_>
    ensures { seen result ≡ named name.now }
{
    if name == id_name() {
        Queryable::Id
    } else if name == collection_name() {
        Queryable::Collection
    } else if name == geometry_name() {
        Queryable::Geometry
    } else {
        property_named(unprefixed(name))
    }
}

pub(crate) fn is_time(asked: &Queryable<'_>) -> bool
    ensures { result ≡ is_time (seen asked.now) }
{
    matches!(asked, Queryable::Time)
}
