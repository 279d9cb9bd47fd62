ghost use Rattle.std.specs.Prelude.{IfOk, IfSome};
ghost use Rattle.sc_json.specs.Good.{Good};
ghost use Rattle.sc_load.specs.Load.{IsWellFormed};

use sc_base::Text;
use sc_json::{Json, JsonFault, read_json, write_json};
use sc_load::{Item, Load, PrepareFault, prepare_collection, prepare_items, prepare_replace};
use std::alloc::{AllocError, Global};
use std::sync::Arc;

/// A load, and whose it is.
#[derive(Drop)]
pub struct Record {
    pub by: u32,
    pub load: Load,
}

/// The first field, a length of eight bytes and so many bytes, and what stands behind it.
fn first_field(bytes: &[u8]) -> Option<(&[u8], &[u8])> {
    if bytes.len() < 8 {
        return None;
    }
    let (front, rest) = bytes.split_at(8);
    let size = u64::from_be_bytes([
        front[0], front[1], front[2], front[3], front[4], front[5], front[6], front[7],
    ]);
    if size > rest.len() as u64 {
        return None;
    }
    Some(rest.split_at(size as usize))
}

/// The fields, behind which nothing stands.
fn fields_of(alloc: Global, bytes: &[u8]) -> Result<Option<Vec<&[u8]>>, AllocError> {
    let mut fields = Vec::new(alloc);
    let mut rest = bytes;
    for _ in 0..bytes.len() {
        let Some((field, behind)) = first_field(rest) else {
            return Ok(None);
        };
        fields.push(field)?;
        rest = behind;
        if rest.is_empty() {
            return Ok(Some(fields));
        }
    }
    Ok(None)
}

/// Adds a field.
fn push_field(payload: &mut Vec<u8>, bytes: &[u8]) -> Result<(), AllocError> {
    payload.extend_from_slice(&(bytes.len() as u64).to_be_bytes())?;
    payload.extend_from_slice(bytes)
}

/// Adds a field for each item's document.
fn push_documents(payload: &mut Vec<u8>, items: &[Arc<Item>]) -> Result<(), AllocError> {
    for item in items {
        push_field(payload, item.doc().bytes())?;
    }
    Ok(())
}

/// The payload of a record: the byte of the load's kind, whose it is, and the load's fields.
fn payload_of(alloc: Global, record: &Record) -> Result<Vec<u8>, AllocError> {
    let mut payload = Vec::new(alloc);
    let kind = match &record.load {
        Load::AddCollection { .. } => 1,
        Load::DropCollection { .. } => 2,
        Load::Insert { .. } => 3,
        Load::Upsert { .. } => 4,
        Load::Replace { .. } => 5,
        Load::Patch { .. } => 6,
        Load::Delete { .. } => 7,
    };
    payload.push(kind)?;
    payload.extend_from_slice(&record.by.to_be_bytes())?;
    match &record.load {
        Load::AddCollection { tree, .. } => {
            push_field(&mut payload, write_json(alloc, tree)?.bytes())?;
        }
        Load::DropCollection { id } => push_field(&mut payload, id.bytes())?,
        Load::Insert { collection, items } => {
            push_field(&mut payload, collection.bytes())?;
            push_documents(&mut payload, items.as_slice())?;
        }
        Load::Upsert { collection, items } => {
            push_field(&mut payload, collection.bytes())?;
            push_documents(&mut payload, items.as_slice())?;
        }
        Load::Replace { collection, item } => {
            push_field(&mut payload, collection.bytes())?;
            push_field(&mut payload, item.doc().bytes())?;
        }
        Load::Patch {
            collection,
            id,
            patch,
        } => {
            push_field(&mut payload, collection.bytes())?;
            push_field(&mut payload, id.bytes())?;
            push_field(&mut payload, write_json(alloc, patch)?.bytes())?;
        }
        Load::Delete { collection, id } => {
            push_field(&mut payload, collection.bytes())?;
            push_field(&mut payload, id.bytes())?;
        }
    }
    Ok(payload)
}

/// The tree of a field, or none where it is no JSON.
fn tree_of(alloc: Global, bytes: &[u8]) -> Result<Option<Json>, AllocError>
    ensures { IfOk result (λ found. IfSome found Good) }
{
    match read_json(alloc, bytes) {
        Ok(tree) => Ok(Some(tree)),
        Err(JsonFault::OutOfMemory) => Err(AllocError),
        Err(_) => Ok(None),
    }
}

/// The load that a `prepare_` call gave, or none where it refused its tree.
fn answered(answer: Result<Load, PrepareFault>) -> Result<Option<Load>, AllocError>
    requires { IfOk answer IsWellFormed }
    ensures { IfOk result (λ found. IfSome found IsWellFormed) }
{
    match answer {
        Ok(load) => Ok(Some(load)),
        Err(PrepareFault::OutOfMemory) => Err(AllocError),
        Err(_) => Ok(None),
    }
}

/// A list of features that are these documents.
fn features_of(alloc: Global, documents: &[&[u8]]) -> Result<Vec<u8>, AllocError> {
    let mut text = Vec::from_slice(alloc, b"{\"type\":\"FeatureCollection\",\"features\":[")?;
    for (place, document) in documents.iter().enumerate() {
        if place > 0 {
            text.push(b',')?;
        }
        text.extend_from_slice(document)?;
    }
    text.extend_from_slice(b"]}")?;
    Ok(text)
}

/// A collection's document as a load.
fn added(alloc: Global, document: &[u8]) -> Result<Option<Load>, AllocError>
    ensures { IfOk result (λ found. IfSome found IsWellFormed) }
{
    let Some(tree) = tree_of(alloc, document)? else {
        return Ok(None);
    };
    answered(prepare_collection(alloc, tree))
}

/// Documents of items as a load that inserts or upserts them.
fn put(
    alloc: Global,
    collection: &Text,
    upsert: bool,
    documents: &[&[u8]],
) -> Result<Option<Load>, AllocError>
    ensures { IfOk result (λ found. IfSome found IsWellFormed) }
{
    let Some(tree) = tree_of(alloc, &features_of(alloc, documents)?)? else {
        return Ok(None);
    };
    answered(prepare_items(alloc, collection, upsert, tree))
}

/// An item's document as a load that replaces the item with its id.
fn replaced(alloc: Global, collection: &Text, document: &[u8]) -> Result<Option<Load>, AllocError>
    ensures { IfOk result (λ found. IfSome found IsWellFormed) }
{
    let Some(tree) = tree_of(alloc, document)? else {
        return Ok(None);
    };
    let id = match tree.text_member("id") {
        Some(id) => id.try_clone(alloc)?,
        None => return Ok(None),
    };
    answered(prepare_replace(alloc, collection, &id, tree))
}

/// A patch of an item as a load.
fn patched(
    alloc: Global,
    collection: Text,
    id: Text,
    document: &[u8],
) -> Result<Option<Load>, AllocError>
    ensures { IfOk result (λ found. IfSome found IsWellFormed) }
{
    let Some(patch) = tree_of(alloc, document)? else {
        return Ok(None);
    };
    Ok(Some(Load::Patch {
        collection,
        id,
        patch,
    }))
}

/// The load of a kind with these fields.
fn load_of(alloc: Global, kind: u8, fields: &[&[u8]]) -> Result<Option<Load>, AllocError>
    ensures { IfOk result (λ found. IfSome found IsWellFormed) }
{
    let Some((first, others)) = fields.split_first() else {
        return Ok(None);
    };
    if kind == 1 && others.is_empty() {
        return added(alloc, first);
    }
    let Some(name) = Text::of(alloc, first)? else {
        return Ok(None);
    };
    match (kind, others) {
        (2, []) => Ok(Some(Load::DropCollection { id: name })),
        (3, documents) => put(alloc, &name, false, documents),
        (4, documents) => put(alloc, &name, true, documents),
        (5, [document]) => replaced(alloc, &name, document),
        (6, [id, patch]) => match Text::of(alloc, id)? {
            Some(id) => patched(alloc, name, id, patch),
            None => Ok(None),
        },
        (7, [id]) => match Text::of(alloc, id)? {
            Some(id) => Ok(Some(Load::Delete {
                collection: name,
                id,
            })),
            None => Ok(None),
        },
        _ => Ok(None),
    }
}

/// The record that has this payload, if one does.
pub fn record_of(alloc: Global, payload: &[u8]) -> Result<Option<Record>, AllocError>
    ensures { IfOk result (λ found. IfSome found (λ r. IsWellFormed r.load)) }
{
    let [kind, a, b, c, d, behind @ ..] = payload else {
        return Ok(None);
    };
    let Some(fields) = fields_of(alloc, behind)? else {
        return Ok(None);
    };
    let Some(load) = load_of(alloc, *kind, &fields)? else {
        return Ok(None);
    };
    let record = Record {
        by: u32::from_be_bytes([*a, *b, *c, *d]),
        load,
    };
    if payload_of(alloc, &record)?.as_slice() != payload {
        return Ok(None);
    }
    Ok(Some(record))
}
