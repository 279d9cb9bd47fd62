ghost use Rattle.std.specs.Prelude.{◌≡◌, List, map, IfOk, MatchOption};
ghost use Rattle.std.specs.Arc.{arc_value};
ghost use Rattle.sc_json.specs.declared.tree.Json.{Json as Tree};
ghost use Rattle.sc_item.specs.Feature.{Feature};
ghost use Rattle.sc_kept.specs.Record.{AreDocumentsOf, IsDocumentOf, IsTextOf};

use sc_base::{Seq, Text};
use sc_item::{Item, ItemFault, read_item};
use sc_json::{Json, JsonFault, read_json, write_json};
use std::alloc::{AllocError, Global};
use std::sync::Arc;

/// The tree whose compact text this is.
pub(crate) fn read_tree(alloc: Global, text: &Text) -> Result<Option<Json>, AllocError>
    ensures { IfOk result (λ found. MatchOption found ((tree : Tree) → IsTextOf text.now tree → ⊥) (IsTextOf text.now)) }
{
    match read_json(alloc, text.bytes()) {
        Ok(tree) => {
            if &write_json(alloc, &tree)? == text {
                Ok(Some(tree))
            } else {
                Ok(None)
            }
        }
        Err(JsonFault::OutOfMemory) => Err(AllocError),
        Err(_) => Ok(None),
    }
}

/// The item of the collection whose document this is.
pub(crate) fn read_document(
    alloc: Global,
    collection: &Text,
    text: &Text,
) -> Result<Option<Item>, AllocError>
    ensures { IfOk result (λ found. MatchOption found ((item : Feature) → IsDocumentOf collection.now text.now item → ⊥) (IsDocumentOf collection.now text.now)) }
{
    let Some(tree) = read_tree(alloc, text)? else {
        return Ok(None);
    };
    match read_item(alloc, collection, tree) {
        Ok(item) => {
            if item.doc() == text {
                Ok(Some(item))
            } else {
                Ok(None)
            }
        }
        Err(ItemFault::OutOfMemory) => Err(AllocError),
        Err(_) => Ok(None),
    }
}

/// The items of the collection whose documents these are.
pub(crate) fn read_documents(
    alloc: Global,
    collection: &Text,
    texts: &[Text],
) -> Result<Option<Seq<Arc<Item>>>, AllocError>
    ensures { IfOk result (λ found. MatchOption found ((items : List Feature) → AreDocumentsOf collection.now texts.now items → ⊥) (λ items. AreDocumentsOf collection.now texts.now (map arc_value items))) }
{
    let mut items = Vec::with_capacity(alloc, texts.len())?;
    for text in texts {
        let Some(item) = read_document(alloc, collection, text)? else {
            return Ok(None);
        };
        items.push(Arc::new(alloc, item)?)?;
    }
    Ok(Some(Seq::of(items)))
}
