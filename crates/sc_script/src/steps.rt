ghost use Rattle.std.specs.Prelude.{◌≡◌, IfOk, IfSome};
ghost use Rattle.sc_json.specs.Good.{Good};
ghost use Rattle.sc_script.specs.Step.{HasGoodTrees, install_of, look_of, search_of, snapshot_of};

use crate::members::{into_member, key_at, name_at};
use crate::step::Step;
use sc_json::Json;
use std::alloc::{AllocError, Global};

/// The snapshot that a tree tells.
pub(crate) fn read_snapshot(alloc: Global, tree: &Json) -> Result<Option<Step>, AllocError>
    ensures value { IfOk result (λ step. step ≡ snapshot_of tree.now) }
    ensures good { IfOk result (λ step. IfSome step HasGoodTrees) }
{
    match name_at(tree, "as") {
        Some(name) => Ok(Some(Step::Snapshot {
            name: name.try_clone(alloc)?,
        })),
        None => Ok(None),
    }
}

/// The look that a tree tells.
pub(crate) fn read_look(alloc: Global, tree: &Json) -> Result<Option<Step>, AllocError>
    ensures value { IfOk result (λ step. step ≡ look_of tree.now) }
    ensures good { IfOk result (λ step. IfSome step HasGoodTrees) }
{
    let Some(name) = name_at(tree, "as") else {
        return Ok(None);
    };
    let Some(collection) = tree.text_member("collection") else {
        return Ok(None);
    };
    match key_at(tree, "key") {
        Some(key) => Ok(Some(Step::Look {
            name: name.try_clone(alloc)?,
            collection: collection.try_clone(alloc)?,
            key,
        })),
        None => Ok(None),
    }
}

/// The install that a tree tells.
pub(crate) fn read_install(alloc: Global, tree: &Json) -> Result<Option<Step>, AllocError>
    ensures value { IfOk result (λ step. step ≡ install_of tree.now) }
    ensures good { IfOk result (λ step. IfSome step HasGoodTrees) }
{
    match name_at(tree, "ticket") {
        Some(name) => Ok(Some(Step::Install {
            ticket: name.try_clone(alloc)?,
        })),
        None => Ok(None),
    }
}

/// The search that a tree tells.
pub(crate) fn read_search(alloc: Global, tree: Json) -> Result<Option<Step>, AllocError>
    ensures value { IfOk result (λ step. step ≡ search_of tree) }
    ensures good { Good tree → IfOk result (λ step. IfSome step HasGoodTrees) }
{
    let on = match name_at(&tree, "on") {
        Some(name) => name.try_clone(alloc)?,
        None => return Ok(None),
    };
    match into_member(tree, "query") {
        Some(query) => Ok(Some(Step::Search { on, query })),
        None => Ok(None),
    }
}
