ghost use Rattle.std.specs.Prelude.{◌≡◌, Some, None, IfOk, MatchBool};
ghost use Rattle.sc_json.specs.declared.tree.Json.{Json as JsonTree};
ghost use Rattle.sc_json.specs.Member.{member_value, value_in};
ghost use Rattle.sc_item.specs.Words.{collection_name};
ghost use Rattle.sc_json.specs.Good.{Good};
ghost use Rattle.sc_item.specs.Trees.{extended, with_collection, properties_in, members_in};

use crate::trees::{index_named, member};
use crate::words::{collection_name, properties_name};
use sc_base::{Seq, Text};
use sc_json::{Json, Member};
use std::alloc::{AllocError, Global};

/// An object with one more member at its end; any other tree as it is.
#[tactic(auto, unfolding(crate::specs::Trees::extended))]
fn extended(tree: Json, last: Member) -> Result<Json, AllocError>
    ensures { IfOk result (λ whole. whole ≡ extended tree last) }
{
    match tree {
        Json::Object(members) => {
            let mut members = members;
            members.push(last)?;
            Ok(Json::Object(members))
        }
        other => Ok(other),
    }
}

/// Whether the tree has a member `collection`.
fn has_collection(tree: &Json) -> bool
    ensures { MatchBool result ((value : JsonTree) × (member_value tree.now collection_name ≡ Some value)) (member_value tree.now collection_name ≡ None) }
{
    match member(tree, collection_name()) {
        Some(_value) => true,
        None => false,
    }
}

/// The tree with the collection as its last member, where it has no member `collection`.
pub(crate) fn with_collection(
    alloc: Global,
    collection: &Text,
    tree: Json,
) -> Result<Json, AllocError>
    requires { Good tree }
    ensures tree { IfOk result (λ whole. whole ≡ with_collection collection.now tree) }
    ensures good { IfOk result Good }
{
    if has_collection(&tree) {
        return Ok(tree);
    }
    let name = Text::from_str(alloc, collection_name())?;
    let value = Json::Text(Text::from_str(alloc, collection.as_str())?);
    extended(tree, Member { name, value })
}

/// The value of the first member of this name, taken out of the members.
fn into_value(members: Seq<Member>, name: &str) -> Option<Json>
    ensures { result ≡ value_in members name.now }
{
    let mut members = members.into_vec();
    match index_named(&members, name) {
        Some(at) => {
            let Member { name: _name, value } = members.remove(at);
            Some(value)
        }
        None => None,
    }
}

/// The members of the member `properties`, taken out of a tree.
pub(crate) fn into_properties(alloc: Global, tree: Json) -> Seq<Member>
    ensures { result ≡ properties_in tree }
{
    let members = into_members(alloc, tree);
    match into_value(members, properties_name()) {
        Some(value) => into_members(alloc, value),
        None => Seq::new(alloc),
    }
}

#[tactic(auto, unfolding(crate::specs::Trees::members_in))]
fn into_members(alloc: Global, tree: Json) -> Seq<Member>
    ensures { result ≡ members_in tree }
{
    match tree {
        Json::Object(members) => members,
        _ => Seq::new(alloc),
    }
}
