//! What a load does to the parts of one collection, by their keys.
ghost use Rattle.std.specs.Prelude.{◌≡◌, ◌↔◌, ◌||◌, ◌++◌, ◌∷◌, [], ℤ, ℕ, List, All, map, IfOk, OnOk, Some, is_some, find, if◌then◌else◌, true};
ghost use Rattle.std.specs.Ordering.{int_cmp, is_eq};
ghost use Rattle.std.specs.Arc.{arc_value};
ghost use Rattle.std.specs.BTreeMap.{IsOrdered, get};
ghost use Rattle.sc_item.specs.Feature.{Feature};
ghost use Rattle.sc_load.specs.Load.{IsItemOf, collection_of};
ghost use Rattle.sc_index.specs.Found.{Indexes};
ghost use Rattle.sc_history.specs.Content.{Collection, Content, IsContent, is_called};
ghost use Rattle.sc_history.specs.Changes.{Change, gone as gone_ids};
ghost use Rattle.sc_history.specs.Names.{fits};
ghost use Rattle.sc_history.specs.Refusals.{IsAllowed};
ghost use Rattle.sc_catalog.specs.Made.{AreMade, is_of_items};
ghost use Rattle.sc_catalog.specs.Groups.{AreGrouped, change_at, come_in, gone_in, name_at};

use sc_base::{Seq, Text};
use sc_cut::{Cut, PartName, key_of};
use sc_index::ItemIndex;
use sc_item::Item;
use sc_shelf::PartChange;
use std::alloc::{AllocError, Global};
use std::collections::BTreeMap;
use std::sync::Arc;

/// What a load does to one part.
#[derive(Drop)]
pub(crate) struct Group {
    /// The ids whose items go out of it.
    pub gone: Vec<Text>,
    /// The items that come into it.
    pub come: Vec<Arc<Item>>,
}

/// Sees to it that there is a group of the key.
fn make_group(alloc: Global, groups: &mut BTreeMap<i32, Group>, key: i32) -> Result<(), AllocError>
    ensures come { OnOk result ((k : ℤ) → come_in (get int_cmp groups.new k) ≡ come_in (get int_cmp groups.old k)) }
    ensures gone { OnOk result ((k : ℤ) → gone_in (get int_cmp groups.new k) ≡ gone_in (get int_cmp groups.old k)) }
    ensures some { OnOk result ((k : ℤ) → is_some (get int_cmp groups.new k) ≡ (is_eq (int_cmp key k) || is_some (get int_cmp groups.old k))) }
{
    if !groups.contains_key(&key) {
        let group = Group {
            gone: Vec::new(alloc),
            come: Vec::new(alloc),
        };
        groups.insert(key, group)?;
    }
    Ok(())
}

/// Puts an item that comes into the part of a key.
fn add_arrival(
    alloc: Global,
    groups: &mut BTreeMap<i32, Group>,
    key: i32,
    item: &Arc<Item>,
) -> Result<(), AllocError>
    ensures come { OnOk result ((k : ℤ) → come_in (get int_cmp groups.new k) ≡ come_in (get int_cmp groups.old k) ++ (if is_eq (int_cmp key k) then arc_value item.now ∷ [] else [])) }
    ensures gone { OnOk result ((k : ℤ) → gone_in (get int_cmp groups.new k) ≡ gone_in (get int_cmp groups.old k)) }
    ensures some { OnOk result ((k : ℤ) → is_some (get int_cmp groups.new k) ≡ (is_eq (int_cmp key k) || is_some (get int_cmp groups.old k))) }
{
    make_group(alloc, groups, key)?;
    let item = Arc::try_clone(item)?;
    match groups.get_mut(&key) {
        Some(group) => Ok(group.come.push(item)?),
        // There is a group of the key now.
        None => unreachable!(),
    }
}

/// Puts an id whose item goes out of the part of a key.
fn add_departure(
    alloc: Global,
    groups: &mut BTreeMap<i32, Group>,
    key: i32,
    id: &Text,
) -> Result<(), AllocError>
    ensures come { OnOk result ((k : ℤ) → come_in (get int_cmp groups.new k) ≡ come_in (get int_cmp groups.old k)) }
    ensures gone { OnOk result ((k : ℤ) → gone_in (get int_cmp groups.new k) ≡ gone_in (get int_cmp groups.old k) ++ (if is_eq (int_cmp key k) then id.now ∷ [] else [])) }
    ensures some { OnOk result ((k : ℤ) → is_some (get int_cmp groups.new k) ≡ (is_eq (int_cmp key k) || is_some (get int_cmp groups.old k))) }
{
    make_group(alloc, groups, key)?;
    let id = id.try_clone(alloc)?;
    match groups.get_mut(&key) {
        Some(group) => Ok(group.gone.push(id)?),
        // There is a group of the key now.
        None => unreachable!(),
    }
}

/// The key of the part of its collection into which an item belongs.
fn key_in(cut: Cut, item: &Item) -> i32
    ensures { (collection : List ℕ) (key : ℤ) → IsItemOf collection item.now → item.now.collection ≡ collection → fits (name_at collection cut key) item.now ≡ is_eq (int_cmp result key) }
{
    key_of(cut, item.start())
}

/// Adds the items that come.
fn add_arrivals(
    alloc: Global,
    groups: &mut BTreeMap<i32, Group>,
    collection: &Text,
    cut: Cut,
    come: &[Arc<Item>],
) -> Result<(), AllocError>
    requires { All (IsItemOf collection.now) (map arc_value come.now) }
    ensures { OnOk result ((items : List Feature) → AreGrouped items collection.now cut [] [] groups.old → AreGrouped items collection.now cut [] (map arc_value come.now) groups.new) }
{
    for item in come {
        let key = key_in(cut, item);
        add_arrival(alloc, groups, key, item)?;
    }
    Ok(())
}

/// Adds an id, if the collection has an item with it.
fn add_found(
    alloc: Global,
    groups: &mut BTreeMap<i32, Group>,
    index: &ItemIndex,
    collection: &Text,
    cut: Cut,
    id: &Text,
) -> Result<(), AllocError>
    ensures { OnOk result ((items come : List Feature) (gone : List (List ℕ)) → Indexes items index.now → All (λ item. IsItemOf item.collection item) items → AreGrouped items collection.now cut gone come groups.old → AreGrouped items collection.now cut (gone ++ id.now ∷ []) come groups.new) }
{
    match index.find(collection, id) {
        Some(item) => {
            add_departure(alloc, groups, key_in(cut, item), id)?;
            Ok(())
        }
        None => Ok(()),
    }
}

/// Adds the ids whose items go, as far as there are such items.
fn add_departures(
    alloc: Global,
    groups: &mut BTreeMap<i32, Group>,
    index: &ItemIndex,
    collection: &Text,
    cut: Cut,
    gone: &[Text],
) -> Result<(), AllocError>
    ensures { OnOk result ((items come : List Feature) → Indexes items index.now → All (λ item. IsItemOf item.collection item) items → AreGrouped items collection.now cut [] come groups.old → AreGrouped items collection.now cut gone.now come groups.new) }
{
    for id in gone {
        add_found(alloc, groups, index, collection, cut, id)?;
    }
    Ok(())
}

/// What a load does to the parts of a collection that is cut so, by their keys.
fn groups_of(
    alloc: Global,
    index: &ItemIndex,
    collection: &Text,
    cut: Cut,
    gone: &[Text],
    come: &[Arc<Item>],
) -> Result<BTreeMap<i32, Group>, AllocError>
    requires { All (IsItemOf collection.now) (map arc_value come.now) }
    ensures { IfOk result (λ groups. (items : List Feature) → Indexes items index.now → All (λ item. IsItemOf item.collection item) items → AreGrouped items collection.now cut gone.now (map arc_value come.now) groups) }
{
    let mut groups = BTreeMap::new(alloc);
    add_arrivals(alloc, &mut groups, collection, cut, come)?;
    add_departures(alloc, &mut groups, index, collection, cut, gone)?;
    Ok(groups)
}

/// The changes of the groups, in the order of their keys.
fn changes_of(
    alloc: Global,
    collection: &Text,
    cut: Cut,
    groups: BTreeMap<i32, Group>,
) -> Result<Vec<PartChange>, AllocError>
    ensures changes { IfOk result (λ changes. changes.items ≡ map (change_at collection.now cut) groups.entries) }
    ensures ordered { IsOrdered int_cmp groups }
{
    let mut changes = Vec::with_capacity(alloc, groups.len())?;
    for (key, group) in groups {
        let Group { gone, come } = group;
        changes.push(PartChange {
            name: PartName {
                collection: collection.try_clone(alloc)?,
                cut,
                key,
            },
            gone: Seq::of(gone),
            come: Seq::of(come),
        })?;
    }
    Ok(changes)
}

/// The changes that a load makes of the parts of a collection that is cut so, in the order of their names.
pub(crate) fn changes_by(
    alloc: Global,
    index: &ItemIndex,
    collection: &Text,
    cut: Cut,
    gone: &[Text],
    come: &[Arc<Item>],
) -> Result<Vec<PartChange>, AllocError>
    requires { All (IsItemOf collection.now) (map arc_value come.now) }
    ensures { IfOk result (λ changes. (content : Content) (change : Change) (made : Collection) → IsContent content → IsAllowed content change → is_of_items change.load ≡ true → find (is_called collection.now) content.collections ≡ Some made → made.cut ≡ cut → collection_of change.load ≡ collection.now → gone_ids change.load ≡ gone.now → change.come ≡ map arc_value come.now → Indexes content.items index.now → AreMade content change changes.items) }
{
    let groups = groups_of(alloc, index, collection, cut, gone, come)?;
    let changes = changes_of(alloc, collection, cut, groups)?;
    Ok(changes)
}
