ghost use Rattle.std.specs.Prelude.{◌≡◌, IfOk};
ghost use Rattle.sc_json.specs.Good.{Good};
ghost use Rattle.sc_load.specs.Patches.{PatchAnswers};

use sc_item::{Item, ItemFault, merge_patch, read_item};
use sc_json::{Json, read_json};
use std::alloc::{AllocError, Global};

/// The tree of an item, read of its document.
fn tree_of(alloc: Global, item: &Item) -> Result<Json, AllocError>
    ensures tree { IfOk result (λ tree. tree ≡ item.now.tree) }
    ensures good { IfOk result Good }
{
    match read_json(alloc, item.doc().bytes()) {
        Ok(tree) => Ok(tree),
        // A document spells its tree, so that nothing but memory can be wanting.
        Err(_) => Err(AllocError),
    }
}

/// The item that a patch makes of an item: the tree that is merged of both (RFC 7396), read as an item of the same collection.
/// Where that is none, its first fault; where it is one with another id, `BadId`.
pub fn patch_item(alloc: Global, item: &Item, patch: &Json) -> Result<Item, ItemFault>
    requires { Good patch.now }
    ensures { PatchAnswers item.now patch.now result }
{
    let tree = tree_of(alloc, item)?;
    let merged = merge_patch(alloc, &tree, patch)?;
    let patched = read_item(alloc, item.collection(), merged)?;
    if patched.id() != item.id() {
        return Err(ItemFault::BadId);
    }
    Ok(patched)
}
