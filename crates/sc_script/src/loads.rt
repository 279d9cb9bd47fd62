ghost use Rattle.sc_json.specs.Views.{text_member};
ghost use Rattle.std.specs.Prelude.{◌≡◌, IfOk, IfSome};
ghost use Rattle.sc_json.specs.Good.{Good};
ghost use Rattle.sc_script.specs.Step.{add_of, drop_of, items_of, replace_of, patch_of, delete_of, HasGoodTree};

use crate::members::{into_list, into_member, into_object, publisher_at};
use crate::step::{Draft, Step};
use sc_base::Text;
use sc_json::Json;
use std::alloc::{AllocError, Global};

/// A copy of the text that a member is.
fn text_at(alloc: Global, tree: &Json, name: &str) -> Result<Option<Text>, AllocError>
    ensures { IfOk result (λ text. text ≡ text_member tree.now name.now) }
{
    match tree.text_member(name) {
        Some(text) => Ok(Some(text.try_clone(alloc)?)),
        None => Ok(None),
    }
}

/// The addition of a collection that a tree tells.
pub(crate) fn read_add(tree: Json) -> Option<Draft>
    ensures value { result ≡ add_of tree }
    ensures good { Good tree → IfSome result HasGoodTree }
{
    match into_object(tree, "collection") {
        Some(collection) => Some(Draft::Add { collection }),
        None => None,
    }
}

/// The end of a collection that a tree tells.
pub(crate) fn read_drop(alloc: Global, tree: &Json) -> Result<Option<Draft>, AllocError>
    ensures value { IfOk result (λ load. load ≡ drop_of tree.now) }
    ensures good { IfOk result (λ load. IfSome load HasGoodTree) }
{
    match text_at(alloc, tree, "collection")? {
        Some(collection) => Ok(Some(Draft::Drop { collection })),
        None => Ok(None),
    }
}

/// The items that a tree tells.
pub(crate) fn read_items(
    alloc: Global,
    upsert: bool,
    tree: Json,
) -> Result<Option<Draft>, AllocError>
    ensures value { IfOk result (λ load. load ≡ items_of upsert tree) }
    ensures good { Good tree → IfOk result (λ load. IfSome load HasGoodTree) }
{
    let Some(collection) = text_at(alloc, &tree, "collection")? else {
        return Ok(None);
    };
    match into_list(tree, "items") {
        Some(items) => Ok(Some(Draft::Items {
            collection,
            upsert,
            items,
        })),
        None => Ok(None),
    }
}

/// The replacement that a tree tells.
pub(crate) fn read_replace(alloc: Global, tree: Json) -> Result<Option<Draft>, AllocError>
    ensures value { IfOk result (λ load. load ≡ replace_of tree) }
    ensures good { Good tree → IfOk result (λ load. IfSome load HasGoodTree) }
{
    let Some(collection) = text_at(alloc, &tree, "collection")? else {
        return Ok(None);
    };
    match into_member(tree, "item") {
        Some(item) => Ok(Some(Draft::Replace { collection, item })),
        None => Ok(None),
    }
}

/// The patch that a tree tells.
pub(crate) fn read_patch(alloc: Global, tree: Json) -> Result<Option<Draft>, AllocError>
    ensures value { IfOk result (λ load. load ≡ patch_of tree) }
    ensures good { Good tree → IfOk result (λ load. IfSome load HasGoodTree) }
{
    let Some(collection) = text_at(alloc, &tree, "collection")? else {
        return Ok(None);
    };
    let Some(id) = text_at(alloc, &tree, "id")? else {
        return Ok(None);
    };
    match into_member(tree, "patch") {
        Some(patch) => Ok(Some(Draft::Patch {
            collection,
            id,
            patch,
        })),
        None => Ok(None),
    }
}

/// The end of an item that a tree tells.
pub(crate) fn read_delete(alloc: Global, tree: &Json) -> Result<Option<Draft>, AllocError>
    ensures value { IfOk result (λ load. load ≡ delete_of tree.now) }
    ensures good { IfOk result (λ load. IfSome load HasGoodTree) }
{
    let Some(collection) = text_at(alloc, tree, "collection")? else {
        return Ok(None);
    };
    match text_at(alloc, tree, "id")? {
        Some(id) => Ok(Some(Draft::Delete { collection, id })),
        None => Ok(None),
    }
}
