ghost use Rattle.std.specs.Prelude.{◌≡◌, IfOk, IfSome, codes};
ghost use Rattle.std.specs.Option.{option_and_then};
ghost use Rattle.sc_json.specs.Good.{Good};
ghost use Rattle.sc_json.specs.Views.{text_member};
ghost use Rattle.sc_script.specs.Drafts.{draft_of, fault_of};
ghost use Rattle.sc_script.specs.Step.{Answers, HasGoodTree, HasGoodTrees, kind_of, load_of, step_of, step_of_kind};

use crate::kind::{Kind, kind_of, size_of as kind_size};
use crate::loads::{read_add, read_delete, read_drop, read_items, read_patch, read_replace};
use crate::members::{publisher_at, size_of};
use crate::step::{Draft, Step, StepFault};
use crate::steps::{read_install, read_look, read_search, read_snapshot};
use sc_json::{Json, JsonFault, read_json};
use std::alloc::{AllocError, Global};

/// The load that a tree tells.
fn read_load(alloc: Global, kind: Kind, tree: Json) -> Result<Option<Draft>, AllocError>
    ensures value { IfOk result (λ load. load ≡ draft_of kind tree) }
    ensures good { Good tree → IfOk result (λ load. IfSome load HasGoodTree) }
{
    match kind {
        Kind::Add => Ok(read_add(tree)),
        Kind::Drop => read_drop(alloc, &tree),
        Kind::Insert => read_items(alloc, false, tree),
        Kind::Upsert => read_items(alloc, true, tree),
        Kind::Replace => read_replace(alloc, tree),
        Kind::Patch => read_patch(alloc, tree),
        Kind::Delete => read_delete(alloc, &tree),
        _ => Ok(None),
    }
}

/// The load that a tree tells, with the number of who publishes it.
fn read_publish(alloc: Global, kind: Kind, tree: Json) -> Result<Option<Step>, AllocError>
    ensures value { IfOk result (λ step. step ≡ load_of tree (draft_of kind tree)) }
    ensures good { Good tree → IfOk result (λ step. IfSome step HasGoodTrees) }
{
    let Some(by) = publisher_at(&tree, "by") else {
        return Ok(None);
    };
    match read_load(alloc, kind, tree)? {
        Some(load) => Ok(Some(Step::Publish { by, load })),
        None => Ok(None),
    }
}

/// The step of a kind that a tree with the right number of members tells.
fn read_kind(alloc: Global, kind: Kind, tree: Json) -> Result<Option<Step>, AllocError>
    ensures value { IfOk result (λ step. step ≡ step_of_kind kind tree) }
    ensures good { Good tree → IfOk result (λ step. IfSome step HasGoodTrees) }
{
    match kind {
        Kind::Snapshot => read_snapshot(alloc, &tree),
        Kind::Look => read_look(alloc, &tree),
        Kind::Install => read_install(alloc, &tree),
        Kind::Search => read_search(alloc, tree),
        _ => read_publish(alloc, kind, tree),
    }
}

/// The kind of step that a tree tells.
fn kind_at(tree: &Json) -> Option<Kind>
    ensures { result ≡ option_and_then kind_of (text_member tree.now (codes "step")) }
{
    match tree.text_member("step") {
        Some(word) => kind_of(word.as_str()),
        None => None,
    }
}

/// The step that a tree is.
#[tactic(auto, unfolding(crate::specs::Step::step_of))]
fn read_tree(alloc: Global, tree: Json) -> Result<Option<Step>, AllocError>
    ensures value { IfOk result (λ step. step ≡ step_of tree) }
    ensures good { Good tree → IfOk result (λ step. IfSome step HasGoodTrees) }
{
    let Some(kind) = kind_at(&tree) else {
        return Ok(None);
    };
    if size_of(&tree) != kind_size(kind) {
        return Ok(None);
    }
    read_kind(alloc, kind, tree)
}

/// A fault of a line's text, as a fault of the step.
fn fault_of(fault: JsonFault) -> StepFault
    ensures { result ≡ fault_of fault }
{
    match fault {
        JsonFault::OutOfMemory => StepFault::OutOfMemory,
        _ => StepFault::BadStep,
    }
}

/// The step that a line is: a JSON text of an object with exactly the members of one kind of step, in any order. Its trees are
/// moved out of the line's tree, and are good.
///
/// It is `BadStep` where the line is no step, for whatever reason. Memory may run out at any place.
pub fn read_step(alloc: Global, line: &[u8]) -> Result<Step, StepFault>
    ensures answer { Answers line.now result }
    ensures trees { IfOk result HasGoodTrees }
{
    let tree = match read_json(alloc, line) {
        Ok(tree) => tree,
        Err(fault) => return Err(fault_of(fault)),
    };
    match read_tree(alloc, tree)? {
        Some(step) => Ok(step),
        None => Err(StepFault::BadStep),
    }
}
