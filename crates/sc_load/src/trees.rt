ghost use Rattle.std.specs.Prelude.{◌≡◌, ◌<◌, Some, None, MatchOption, length, slice_index_or};
ghost use Rattle.sc_json.specs.declared.tree.Member.{Member as AMember, out-Member};
ghost use Rattle.sc_json.specs.Member.{member_value, value_in};
ghost use Rattle.std.specs.List.{position};
ghost use Rattle.std.specs.Option.{option_and_then};
ghost use Rattle.sc_geom.specs.Tree.{list_of};
ghost use Rattle.sc_item.specs.Trees.{is_named, text_of, text_member};

use sc_base::{Seq, Text};
use sc_json::{Json, Member};

/// The text that a tree is.
#[tactic(auto, unfolding(sc_item::specs::Trees::text_of))]
pub(crate) fn text_of(tree: &Json) -> Option<&Text>
    ensures { MatchOption result (text_of tree.now ≡ None) (λ text. text_of tree.now ≡ Some text.now) }
{
    match tree {
        Json::Text(text) => Some(text),
        _ => None,
    }
}

/// The elements of the list that a tree is.
#[tactic(auto, unfolding(sc_geom::specs::Tree::list_of))]
pub(crate) fn list_of(tree: &Json) -> Option<&[Json]>
    ensures { MatchOption result (list_of tree.now ≡ None) (λ elements. list_of tree.now ≡ Some elements.now) }
{
    match tree {
        Json::List(elements) => Some(elements.as_slice()),
        _ => None,
    }
}

/// The value of an object's member of this name.
pub(crate) fn member<'a>(tree: &'a Json, name: &str) -> Option<&'a Json>
    ensures { MatchOption result (member_value tree.now name.now ≡ None) (λ value. member_value tree.now name.now ≡ Some value.now) }
{
    match tree.member(name) {
        Some(value) => Some(value),
        None => None,
    }
}

/// The text that an object's member of this name is.
#[tactic(auto, unfolding(sc_item::specs::Trees::text_member))]
pub(crate) fn text_member<'a>(tree: &'a Json, name: &str) -> Option<&'a Text>
    ensures { MatchOption result (text_member tree.now name.now ≡ None) (λ text. text_member tree.now name.now ≡ Some text.now) }
{
    match member(tree, name) {
        Some(value) => text_of(value),
        None => None,
    }
}

fn position_named(members: &[Member], name: &str) -> Option<usize>
    ensures { result ≡ position (is_named name.now) members.now }
{
    members
        .iter()
        .position(|member| member.name.as_str() == name)
}

/// The place of the first member of this name.
fn index_named(members: &[Member], name: &str) -> Option<usize>
    ensures { MatchOption result (value_in members.now name.now ≡ None)
        (λ at. (at < length members.now) × ((m : AMember) → m ≡ slice_index_or members.now at m → value_in members.now name.now ≡ Some (out-Member m).value)) }
{
    position_named(members, name)
}

/// The value of the first member of this name, taken out of the members.
fn into_value(members: Seq<Member>, name: &str) -> Option<Json>
    ensures { result ≡ value_in members name.now }
{
    let mut members = members.into_vec();
    match index_named(&members, name) {
        Some(at) => {
            let Member { name: _name, value } = members.swap_remove(at);
            Some(value)
        }
        None => None,
    }
}

/// The value of an object's member of this name, taken out of the tree.
fn into_member(tree: Json, name: &str) -> Option<Json>
    ensures { result ≡ member_value tree name.now }
{
    match tree {
        Json::Object(members) => into_value(members, name),
        _ => None,
    }
}

/// The elements of the list that a tree is, taken out of it.
#[tactic(auto, unfolding(sc_geom::specs::Tree::list_of))]
fn into_elements(tree: Json) -> Option<Seq<Json>>
    ensures { result ≡ list_of tree }
{
    match tree {
        Json::List(elements) => Some(elements),
        _ => None,
    }
}

/// The elements of the list that an object's member of this name is, taken out of the tree.
pub(crate) fn into_list(tree: Json, name: &str) -> Option<Seq<Json>>
    ensures { result ≡ option_and_then list_of (member_value tree name.now) }
{
    match into_member(tree, name) {
        Some(value) => into_elements(value),
        None => None,
    }
}
