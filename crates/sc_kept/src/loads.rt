ghost use Rattle.std.specs.Prelude.{◌≡◌, IfOk, MatchOption, if◌then◌else◌};
ghost use Rattle.sc_kept.specs.Record.{IsNotTold, IsTold};

use crate::documents::{read_document, read_documents, read_tree};
use sc_base::Text;
use sc_load::{Load, PrepareFault, prepare_collection};
use std::alloc::{AllocError, Global};
use std::sync::Arc;

/// The most items of a load.
const MOST_ITEMS: usize = 10_000;

/// The load of this kind that has these fields.
pub(crate) fn read_load(
    alloc: Global,
    kind: u8,
    fields: &[Text],
) -> Result<Option<Load>, AllocError>
    ensures { IfOk result (λ found. MatchOption found (IsNotTold kind fields.now) (IsTold kind fields.now)) }
{
    match kind {
        1 => read_addition(alloc, fields),
        2 => read_drop(alloc, fields),
        3 => read_insert(alloc, fields),
        4 => read_upsert(alloc, fields),
        5 => read_replacement(alloc, fields),
        6 => read_patch(alloc, fields),
        7 => read_deletion(alloc, fields),
        _ => Ok(None),
    }
}

/// The load that adds the collection which a text describes.
fn read_addition(alloc: Global, fields: &[Text]) -> Result<Option<Load>, AllocError>
    ensures { IfOk result (λ found. MatchOption found (IsNotTold 1 fields.now) (IsTold 1 fields.now)) }
{
    let [text] = fields else {
        return Ok(None);
    };
    let Some(tree) = read_tree(alloc, text)? else {
        return Ok(None);
    };
    match prepare_collection(alloc, tree) {
        Ok(load) => Ok(Some(load)),
        Err(PrepareFault::OutOfMemory) => Err(AllocError),
        Err(_) => Ok(None),
    }
}

/// The load that drops a collection.
fn read_drop(alloc: Global, fields: &[Text]) -> Result<Option<Load>, AllocError>
    ensures { IfOk result (λ found. MatchOption found (IsNotTold 2 fields.now) (IsTold 2 fields.now)) }
{
    let [id] = fields else {
        return Ok(None);
    };
    let id = id.try_clone(alloc)?;
    Ok(Some(Load::DropCollection { id }))
}

/// The load that inserts items.
fn read_insert(alloc: Global, fields: &[Text]) -> Result<Option<Load>, AllocError>
    ensures { IfOk result (λ found. MatchOption found (IsNotTold 3 fields.now) (IsTold 3 fields.now)) }
{
    let [collection, texts @ ..] = fields else {
        return Ok(None);
    };
    if texts.len() > MOST_ITEMS {
        return Ok(None);
    }
    let Some(items) = read_documents(alloc, collection, texts)? else {
        return Ok(None);
    };
    let collection = collection.try_clone(alloc)?;
    Ok(Some(Load::Insert { collection, items }))
}

/// The load that upserts items.
fn read_upsert(alloc: Global, fields: &[Text]) -> Result<Option<Load>, AllocError>
    ensures { IfOk result (λ found. MatchOption found (IsNotTold 4 fields.now) (IsTold 4 fields.now)) }
{
    let [collection, texts @ ..] = fields else {
        return Ok(None);
    };
    if texts.len() > MOST_ITEMS {
        return Ok(None);
    }
    let Some(items) = read_documents(alloc, collection, texts)? else {
        return Ok(None);
    };
    let collection = collection.try_clone(alloc)?;
    Ok(Some(Load::Upsert { collection, items }))
}

/// The load that replaces an item.
fn read_replacement(alloc: Global, fields: &[Text]) -> Result<Option<Load>, AllocError>
    ensures { IfOk result (λ found. MatchOption found (IsNotTold 5 fields.now) (IsTold 5 fields.now)) }
{
    let [collection, text] = fields else {
        return Ok(None);
    };
    let Some(item) = read_document(alloc, collection, text)? else {
        return Ok(None);
    };
    let collection = collection.try_clone(alloc)?;
    let item = Arc::new(alloc, item)?;
    Ok(Some(Load::Replace { collection, item }))
}

/// The load that patches an item.
fn read_patch(alloc: Global, fields: &[Text]) -> Result<Option<Load>, AllocError>
    ensures { IfOk result (λ found. MatchOption found (IsNotTold 6 fields.now) (IsTold 6 fields.now)) }
{
    let [collection, id, text] = fields else {
        return Ok(None);
    };
    let Some(patch) = read_tree(alloc, text)? else {
        return Ok(None);
    };
    let collection = collection.try_clone(alloc)?;
    let id = id.try_clone(alloc)?;
    Ok(Some(Load::Patch {
        collection,
        id,
        patch,
    }))
}

/// The load that deletes an item.
fn read_deletion(alloc: Global, fields: &[Text]) -> Result<Option<Load>, AllocError>
    ensures { IfOk result (λ found. MatchOption found (IsNotTold 7 fields.now) (IsTold 7 fields.now)) }
{
    let [collection, id] = fields else {
        return Ok(None);
    };
    let collection = collection.try_clone(alloc)?;
    let id = id.try_clone(alloc)?;
    Ok(Some(Load::Delete { collection, id }))
}
