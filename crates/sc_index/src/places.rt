//! The items of one collection, each in the place of its id.
ghost use Rattle.std.specs.Prelude.{◌≡◌, ℕ, List, Some, None, map, find, OnOk, if◌then◌else◌};
ghost use Rattle.std.specs.Option.{option_map, option_or};
ghost use Rattle.std.specs.Str.{bytes_eq};
ghost use Rattle.std.specs.Arc.{arc_value};
ghost use Rattle.sc_index.specs.Found.{HasPlace, HavePlaces, HoldTheSame, held};

use sc_base::Text;
use sc_item::Item;
use std::alloc::{AllocError, Global};
use std::collections::BTreeMap;
use std::sync::Arc;

/// Places of ids, in the order of the ids. One without an item was made for an item to come.
pub(crate) type Places = BTreeMap<Text, Option<Arc<Item>>>;

/// The item in the place of the id.
pub(crate) fn held<'a>(places: &'a Places, id: &Text) -> Option<&'a Arc<Item>>
    ensures { option_map (λ item. arc_value item.now) result ≡ held places.now id.now }
{
    match places.get(id) {
        Some(place) => place.as_ref(),
        None => None,
    }
}

/// Sees to it that the id has a place.
fn make_place(alloc: Global, places: &mut Places, id: &Text) -> Result<(), AllocError>
    ensures same { HoldTheSame places.old places.new }
    ensures stays { (other : List ℕ) → HasPlace places.old other → HasPlace places.new other }
    ensures made { OnOk result (HasPlace places.new id.now) }
{
    if !places.contains_key(id) {
        let id = id.try_clone(alloc)?;
        places.insert(id, None)?;
    }
    Ok(())
}

/// Sees to it that the id of each item has a place.
fn make_places(alloc: Global, places: &mut Places, items: &[Arc<Item>]) -> Result<(), AllocError>
    ensures same { HoldTheSame places.old places.new }
    ensures made { OnOk result (HavePlaces places.new (map arc_value items.now)) }
{
    for item in items {
        make_place(alloc, places, item.id())?;
    }
    Ok(())
}

/// Takes out the place of the id, if it holds no item.
fn free_place(places: &mut Places, id: &Text)
    ensures { HoldTheSame places.old places.new }
{
    if let Some(None) = places.get(id) {
        places.remove(id);
    }
}

/// Takes out the places of the items' ids that hold no item.
fn free_places(places: &mut Places, items: &[Arc<Item>])
    ensures { HoldTheSame places.old places.new }
{
    for item in items {
        free_place(places, item.id());
    }
}

/// Sees to it that the id of each item has a place. Where memory is wanting, those that hold no item are taken out.
pub(crate) fn reserve_places(
    alloc: Global,
    places: &mut Places,
    items: &[Arc<Item>],
) -> Result<(), AllocError>
    ensures same { HoldTheSame places.old places.new }
    ensures made { OnOk result (HavePlaces places.new (map arc_value items.now)) }
{
    let made = make_places(alloc, places, items);
    if made.is_err() {
        free_places(places, items);
    }
    made
}

/// Puts an item into the place of its id, where one may be.
fn put_one(places: &mut Places, item: Arc<Item>)
    requires { HasPlace places.old (arc_value item).id }
    ensures held { (id : List ℕ) → held places.new id ≡ (if bytes_eq (arc_value item).id id then Some (arc_value item) else held places.old id) }
    ensures stays { (other : List ℕ) → HasPlace places.old other → HasPlace places.new other }
{
    if let Some(place) = places.get_mut(item.id()) {
        *place = Some(item);
    }
}

/// Puts items into the places of their ids, where some may be. Of several with one id the first stays.
pub(crate) fn put_all(places: &mut Places, items: Vec<Arc<Item>>)
    requires { HavePlaces places.old (map arc_value items.items) }
    ensures { (id : List ℕ) → held places.new id ≡ option_or (find (λ item. bytes_eq item.id id) (map arc_value items.items)) (held places.old id) }
{
    let mut items = items;
    // The first of several items with one id is put last.
    while let Some(item) = items.pop() {
        put_one(places, item);
    }
}
