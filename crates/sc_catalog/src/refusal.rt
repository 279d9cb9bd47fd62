//! The faults of a load that show by what is there and by what stands in the load.
ghost use Rattle.std.specs.Prelude.{◌≡◌, [], List, true, false, Some, None, map, option_map, IfOk, if◌then◌else◌};
ghost use Rattle.std.specs.Arc.{arc_value};
ghost use Rattle.sc_item.specs.Feature.{Feature};
ghost use Rattle.sc_load.specs.Load.{collection_of};
ghost use Rattle.sc_load.specs.declared.fault.LoadFault.TheVariants.{NoItem};
ghost use Rattle.sc_index.specs.Found.{Indexes};
ghost use Rattle.sc_history.specs.Content.{Content, is_made, has_item};
ghost use Rattle.sc_history.specs.Changes.{ids_of};
ghost use Rattle.sc_history.specs.Refusals.{an_id_is_twice, an_item_exists, first_there, first_twice, plain_fault, unless};
ghost use Rattle.sc_catalog.specs.Answers.{AnswersFault, adds};

use sc_base::Text;
use sc_index::ItemIndex;
use sc_item::Item;
use sc_load::{Load, LoadFault};
use std::alloc::{AllocError, Global};
use std::collections::BTreeSet;
use std::sync::Arc;

/// Whether the collection has an item with the id.
fn is_there(index: &ItemIndex, collection: &Text, id: &Text) -> bool
    ensures { (content : List Feature) → Indexes content index.now → result ≡ has_item content collection.now id.now }
{
    index.find(collection, id).is_some()
}

/// The first of the items whose id the collection has.
fn first_there<'a>(
    index: &ItemIndex,
    collection: &Text,
    items: &'a [Arc<Item>],
) -> Option<&'a Arc<Item>>
    ensures { (content : List Feature) → Indexes content index.now → option_map (λ item. arc_value item.now) result ≡ first_there content collection.now (map arc_value items.now) }
{
    for item in items {
        if is_there(index, collection, item.id()) {
            return Some(item);
        }
    }
    None
}

/// The id of the first item whose id stands before it too.
fn first_twice<'a>(alloc: Global, items: &'a [Arc<Item>]) -> Result<Option<&'a Text>, AllocError>
    ensures { IfOk result (λ id. option_map (λ id. id.now) id ≡ first_twice [] (ids_of (map arc_value items.now))) }
{
    let mut seen = BTreeSet::new(alloc);
    for item in items {
        if !seen.insert(item.id().as_str())? {
            return Ok(Some(item.id()));
        }
    }
    Ok(None)
}

/// Refuses items one of which is there.
fn refuse_there(
    alloc: Global,
    index: &ItemIndex,
    collection: &Text,
    items: &[Arc<Item>],
) -> Result<(), LoadFault>
    ensures { (content : List Feature) → Indexes content index.now → AnswersFault (an_item_exists content collection.now (map arc_value items.now)) result }
{
    match first_there(index, collection, items) {
        Some(item) => Err(LoadFault::ItemExists {
            id: item.id().try_clone(alloc)?,
        }),
        None => Ok(()),
    }
}

/// Refuses items two of which have one id.
fn refuse_twice(alloc: Global, items: &[Arc<Item>]) -> Result<(), LoadFault>
    ensures { AnswersFault (an_id_is_twice (map arc_value items.now)) result }
{
    match first_twice(alloc, items)? {
        Some(id) => Err(LoadFault::DuplicateInLoad {
            id: id.try_clone(alloc)?,
        }),
        None => Ok(()),
    }
}

/// Refuses an id that no item of the collection has.
fn refuse_missing(
    alloc: Global,
    index: &ItemIndex,
    collection: &Text,
    id: &Text,
) -> Result<(), LoadFault>
    ensures { (content : List Feature) → Indexes content index.now → AnswersFault (unless (has_item content collection.now id.now) (NoItem id.now)) result }
{
    if is_there(index, collection, id) {
        return Ok(());
    }
    Err(LoadFault::NoItem {
        id: id.try_clone(alloc)?,
    })
}

/// Refuses a load by the first fault that shows by what is there and by what stands in the load. `made` says whether the
/// load's collection is there.
pub(crate) fn refuse_plainly(
    alloc: Global,
    made: bool,
    index: &ItemIndex,
    load: &Load,
) -> Result<(), LoadFault>
    ensures { (content : Content) → (made ≡ is_made content.collections (collection_of load.now)) → Indexes content.items index.now → AnswersFault (plain_fault content load.now) result }
{
    if let Load::AddCollection { .. } = load {
        return if made {
            Err(LoadFault::CollectionExists)
        } else {
            Ok(())
        };
    }
    if !made {
        return Err(LoadFault::NoCollection);
    }
    refuse_items(alloc, index, load)
}

/// Refuses a load of a collection that is there by its items.
fn refuse_items(alloc: Global, index: &ItemIndex, load: &Load) -> Result<(), LoadFault>
    ensures { (content : Content) → is_made content.collections (collection_of load.now) ≡ true → Indexes content.items index.now → adds load.now ≡ false → AnswersFault (plain_fault content load.now) result }
{
    match load {
        Load::Insert { collection, items } => {
            refuse_there(alloc, index, collection, items.as_slice())?;
            refuse_twice(alloc, items.as_slice())
        }
        Load::Upsert { items, .. } => refuse_twice(alloc, items.as_slice()),
        Load::Replace { collection, item } => refuse_missing(alloc, index, collection, item.id()),
        Load::Patch { collection, id, .. } => refuse_missing(alloc, index, collection, id),
        Load::Delete { collection, id } => refuse_missing(alloc, index, collection, id),
        _ => Ok(()),
    }
}
