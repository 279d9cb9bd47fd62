ghost use Rattle.std.specs.Prelude.{◌≡◌, ◌↔◌, ℕ, List, IsTrue, MatchOption, MatchBool};
ghost use Rattle.sc_json.specs.declared.tree.Json.{Json as JsonTree};
ghost use Rattle.std.specs.Prelude.{Some};
ghost use Rattle.sc_item.specs.Trees.{text_of};
ghost use Rattle.sc_item.specs.Reading.{IsFeature, IsId, IsOf, Belongs, Parted};

use crate::fault::ItemFault;
use crate::shape::shape_of;
use crate::times::{Times, times_in};
use crate::trees::{is_object, member, text_member, text_of};
use crate::words::{collection_name, feature_word, id_name, properties_name, type_name};
use sc_base::Text;
use sc_geom::Geom;
use sc_json::Json;
use std::alloc::Global;

/// What is read of an item's tree.
#[derive(Debug, Drop)]
pub(crate) struct Parts {
    pub id: Text,
    pub times: Times,
    pub geom: Option<Geom>,
}

/// The properties of a feature.
fn properties_of(tree: &Json) -> Option<&Json>
    ensures { MatchOption result ((properties : JsonTree) → IsFeature tree.now properties → ⊥) (λ properties. IsFeature tree.now properties.now) }
{
    let kind = text_member(tree, type_name())?;
    if kind.as_str() != feature_word() {
        return None;
    }
    let properties = member(tree, properties_name())?;
    if is_object(properties) {
        Some(properties)
    } else {
        None
    }
}

/// The id, if it is one.
fn id_of(tree: &Json) -> Option<&Text>
    ensures { MatchOption result ((id : List ℕ) → IsId tree.now id → ⊥) (λ id. IsId tree.now id.now) }
{
    let id = text_member(tree, id_name())?;
    if id.is_empty() {
        return None;
    }
    if id.len() > 256 {
        return None;
    }
    Some(id)
}

/// Whether the tree tells no other collection.
fn belongs(tree: &Json, collection: &Text) -> bool
    ensures { IsTrue result ↔ Belongs collection.now tree.now }
{
    match member(tree, collection_name()) {
        None => true,
        Some(value) => is_text(value, collection),
    }
}

fn is_text(value: &Json, text: &Text) -> bool
    ensures { IsTrue result ↔ (text_of value.now ≡ Some text.now) }
{
    match text_of(value) {
        Some(found) => found == text,
        None => false,
    }
}

/// What is read of an item's tree, or its first fault.
pub(crate) fn parts_of(alloc: Global, collection: &Text, tree: &Json) -> Result<Parts, ItemFault>
    ensures { Parted collection.now tree.now result }
{
    let Some(properties) = properties_of(tree) else {
        return Err(ItemFault::NotAFeature);
    };
    let Some(id) = id_of(tree) else {
        return Err(ItemFault::BadId);
    };
    if !belongs(tree, collection) {
        return Err(ItemFault::WrongCollection);
    }
    let Some(times) = times_in(properties) else {
        return Err(ItemFault::BadTime);
    };
    let geom = match shape_of(alloc, tree) {
        Ok(geom) => geom,
        Err(fault) => return Err(fault),
    };
    let id = id.try_clone(alloc)?;
    Ok(Parts { id, times, geom })
}
