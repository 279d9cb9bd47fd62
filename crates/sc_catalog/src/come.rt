//! What a load puts, and the ids whose items it takes.
ghost use Rattle.std.specs.Prelude.{◌≡◌, [], ◌∷◌, List, None, map, true, IfOk};
ghost use Rattle.std.specs.Arc.{arc_value};
ghost use Rattle.sc_json.specs.Good.{Good};
ghost use Rattle.sc_item.specs.Feature.{Feature};
ghost use Rattle.sc_load.specs.Load.{IsWellFormed};
ghost use Rattle.sc_load.specs.declared.load.Load.TheVariants.{Patch};
ghost use Rattle.sc_index.specs.Found.{Indexes};
ghost use Rattle.sc_history.specs.Content.{Content, has_item};
ghost use Rattle.sc_history.specs.Changes.{gone};
ghost use Rattle.sc_history.specs.Refusals.{plain_fault};
ghost use Rattle.sc_catalog.specs.Answers.{AnswersCome, AnswersPatch, patch_fault};

use sc_base::Text;
use sc_index::ItemIndex;
use sc_item::{Item, ItemFault};
use sc_json::Json;
use sc_load::{Load, LoadFault, patch_item};
use std::alloc::{AllocError, Global};
use std::sync::Arc;

/// Pointers to the same items.
fn share_all(alloc: Global, items: &[Arc<Item>]) -> Result<Vec<Arc<Item>>, AllocError>
    ensures { IfOk result (λ shared. map arc_value shared.items ≡ map arc_value items.now) }
{
    let mut shared = Vec::with_capacity(alloc, items.len())?;
    for item in items {
        shared.push(Arc::try_clone(item)?)?;
    }
    Ok(shared)
}

/// The one item, shared.
fn alone(alloc: Global, item: Item) -> Result<Vec<Arc<Item>>, AllocError>
    ensures { IfOk result (λ shared. map arc_value shared.items ≡ item ∷ []) }
{
    let mut shared = Vec::with_capacity(alloc, 1)?;
    shared.push(Arc::new(alloc, item)?)?;
    Ok(shared)
}

/// Why a patch is refused.
fn patch_fault(fault: ItemFault) -> LoadFault
    ensures { result ≡ patch_fault fault }
{
    match fault {
        ItemFault::OutOfMemory => LoadFault::OutOfMemory,
        _ => LoadFault::BadPatch { fault },
    }
}

/// The one item that a patch makes of an item.
fn patch_one(alloc: Global, old: &Item, patch: &Json) -> Result<Vec<Arc<Item>>, LoadFault>
    requires { Good patch.now }
    ensures { AnswersPatch old.now patch.now result }
{
    match patch_item(alloc, old, patch) {
        Ok(item) => Ok(alone(alloc, item)?),
        Err(fault) => Err(patch_fault(fault)),
    }
}

/// The one item that a patch makes of the collection's item with the id.
fn patched(
    alloc: Global,
    index: &ItemIndex,
    collection: &Text,
    id: &Text,
    patch: &Json,
) -> Result<Vec<Arc<Item>>, LoadFault>
    requires { Good patch.now }
    ensures { (items : List Feature) → Indexes items index.now → has_item items collection.now id.now ≡ true → AnswersCome items (Patch collection.now id.now patch.now) result }
{
    match index.find(collection, id) {
        Some(old) => patch_one(alloc, old, patch),
        None => Err(LoadFault::NoItem {
            id: id.try_clone(alloc)?,
        }),
    }
}

/// The items that a load puts where no earlier fault holds, or the fault of its patch.
pub(crate) fn come_of(
    alloc: Global,
    index: &ItemIndex,
    load: &Load,
) -> Result<Vec<Arc<Item>>, LoadFault>
    requires { IsWellFormed load.now }
    ensures { (content : Content) → Indexes content.items index.now → plain_fault content load.now ≡ None → AnswersCome content.items load.now result }
{
    match load {
        Load::Patch {
            collection,
            id,
            patch,
        } => patched(alloc, index, collection, id, patch),
        _ => Ok(share_all(alloc, load.items())?),
    }
}

/// A copy of the one id.
fn one_id(alloc: Global, id: &Text) -> Result<Vec<Text>, AllocError>
    ensures { IfOk result (λ ids. ids.items ≡ id.now ∷ []) }
{
    let mut ids = Vec::with_capacity(alloc, 1)?;
    ids.push(id.try_clone(alloc)?)?;
    Ok(ids)
}

/// Copies of the ids of items.
fn ids_of(alloc: Global, items: &[Arc<Item>]) -> Result<Vec<Text>, AllocError>
    ensures { IfOk result (λ ids. ids.items ≡ map (λ item. item.id) (map arc_value items.now)) }
{
    let mut ids = Vec::with_capacity(alloc, items.len())?;
    for item in items {
        ids.push(item.id().try_clone(alloc)?)?;
    }
    Ok(ids)
}

/// The ids whose items a load takes out of its collection, where they are there. Of one that drops its collection there are
/// none, since all its items go.
pub(crate) fn gone_of(alloc: Global, load: &Load) -> Result<Vec<Text>, AllocError>
    ensures { IfOk result (λ ids. ids.items ≡ gone load.now) }
{
    match load {
        Load::Upsert { items, .. } => ids_of(alloc, items.as_slice()),
        Load::Replace { item, .. } => one_id(alloc, item.id()),
        Load::Patch { id, .. } => one_id(alloc, id),
        Load::Delete { id, .. } => one_id(alloc, id),
        _ => Ok(Vec::new(alloc)),
    }
}
