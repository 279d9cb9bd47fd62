ghost use Rattle.std.specs.Prelude.{◌≡◌, ◌∷◌, [], All, map, IfOk, OnOk};
ghost use Rattle.std.specs.Arc.{arc_value};
ghost use Rattle.sc_item.specs.Feature.{IsKept};
ghost use Rattle.sc_load.specs.Load.{items_of};
ghost use Rattle.sc_catalog.specs.Entries.{entry_of};
ghost use Rattle.sc_kept.specs.Record.{document, fields_of, kind_of, payload_of, AddsFields, IsSealable};

use sc_base::Text;
use sc_item::Item;
use sc_journal::Sealed;
use sc_json::write_json;
use sc_load::Load;
use std::alloc::{AllocError, Global};
use std::sync::Arc;

/// The record of a load of the publisher with the number `by`, as a payload that tells both.
pub fn seal(alloc: Global, by: u32, load: &Load) -> Result<Sealed, AllocError>
    ensures payload { IfOk result (λ sealed. sealed ≡ payload_of (entry_of by load.now)) }
    ensures sealable { IfOk result (λ _. IsSealable (entry_of by load.now)) }
{
    let mut payload = Vec::new(alloc);
    payload.push(kind_of(load))?;
    payload.extend_from_slice(&by.to_be_bytes())?;
    put_fields(alloc, &mut payload, load)?;
    Sealed::of(alloc, &payload)
}

/// The byte of a load's kind.
fn kind_of(load: &Load) -> u8
    ensures { result ≡ kind_of load.now }
{
    match load {
        Load::AddCollection { .. } => 1,
        Load::DropCollection { .. } => 2,
        Load::Insert { .. } => 3,
        Load::Upsert { .. } => 4,
        Load::Replace { .. } => 5,
        Load::Patch { .. } => 6,
        Load::Delete { .. } => 7,
    }
}

/// Adds a load's fields.
fn put_fields(alloc: Global, out: &mut Vec<u8>, load: &Load) -> Result<(), AllocError>
    ensures fields { OnOk result (AddsFields out.old.items out.new.items (fields_of load.now)) }
    ensures kept { OnOk result (All IsKept (items_of load.now)) }
{
    match load {
        Load::AddCollection { tree, .. } => put_field(out, &write_json(alloc, tree)?),
        Load::DropCollection { id } => put_field(out, id),
        Load::Insert { collection, items } => put_items(out, collection, items.as_slice()),
        Load::Upsert { collection, items } => put_items(out, collection, items.as_slice()),
        Load::Replace { collection, item } => put_item(out, collection, item),
        Load::Patch {
            collection,
            id,
            patch,
        } => put_three(out, collection, id, &write_json(alloc, patch)?),
        Load::Delete { collection, id } => put_pair(out, collection, id),
    }
}

/// Adds the fields of a collection and of its item.
fn put_item(out: &mut Vec<u8>, collection: &Text, item: &Item) -> Result<(), AllocError>
    ensures fields { OnOk result (AddsFields out.old.items out.new.items (collection.now ∷ document item.now ∷ [])) }
    ensures kept { IsKept item.now }
{
    put_pair(out, collection, item.doc())
}

/// Adds the fields of a collection and of its items' documents.
fn put_items(out: &mut Vec<u8>, collection: &Text, items: &[Arc<Item>]) -> Result<(), AllocError>
    ensures fields { OnOk result (AddsFields out.old.items out.new.items (collection.now ∷ map document (map arc_value items.now))) }
    ensures kept { OnOk result (All IsKept (map arc_value items.now)) }
{
    put_field(out, collection)?;
    put_documents(out, items)
}

/// Adds a field for each item's document.
fn put_documents(out: &mut Vec<u8>, items: &[Arc<Item>]) -> Result<(), AllocError>
    ensures fields { OnOk result (AddsFields out.old.items out.new.items (map document (map arc_value items.now))) }
    ensures kept { OnOk result (All IsKept (map arc_value items.now)) }
{
    for item in items {
        put_field(out, item.doc())?;
    }
    Ok(())
}

/// Adds two fields.
fn put_pair(out: &mut Vec<u8>, first: &Text, second: &Text) -> Result<(), AllocError>
    ensures { OnOk result (AddsFields out.old.items out.new.items (first.now ∷ second.now ∷ [])) }
{
    put_field(out, first)?;
    put_field(out, second)
}

/// Adds three fields.
fn put_three(out: &mut Vec<u8>, first: &Text, second: &Text, third: &Text) -> Result<(), AllocError>
    ensures { OnOk result (AddsFields out.old.items out.new.items (first.now ∷ second.now ∷ third.now ∷ [])) }
{
    put_pair(out, first, second)?;
    put_field(out, third)
}

/// Adds a field.
fn put_field(out: &mut Vec<u8>, text: &Text) -> Result<(), AllocError>
    ensures { OnOk result (AddsFields out.old.items out.new.items (text.now ∷ [])) }
{
    let bytes = text.bytes();
    out.extend_from_slice(&(bytes.len() as u64).to_be_bytes())?;
    out.extend_from_slice(bytes)?;
    Ok(())
}
