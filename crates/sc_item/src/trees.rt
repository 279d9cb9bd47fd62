ghost use Rattle.std.specs.Prelude.{◌≡◌, ◌<◌, Some, None, MatchOption, length, slice_index_or};
ghost use Rattle.std.specs.Option.{option_copied};
ghost use Rattle.sc_json.specs.declared.tree.Member.{Member as AMember, out-Member};
ghost use Rattle.sc_json.specs.Member.{member_value, value_in};
ghost use Rattle.std.specs.List.{position};
ghost use Rattle.sc_item.specs.Trees.{is_named, text_of, is_null, is_object, members_in, text_member};

use sc_base::Text;
use sc_json::{Json, Member};

/// The text that a tree is.
#[tactic(auto, unfolding(crate::specs::Trees::text_of))]
pub(crate) fn text_of(tree: &Json) -> Option<&Text>
    ensures { MatchOption result (text_of tree.now ≡ None) (λ text. text_of tree.now ≡ Some text.now) }
{
    match tree {
        Json::Text(text) => Some(text),
        _ => None,
    }
}

#[tactic(auto, unfolding(crate::specs::Trees::is_null))]
pub(crate) fn is_null(tree: &Json) -> bool
    ensures { result ≡ is_null tree.now }
{
    match tree {
        Json::Null => true,
        _ => false,
    }
}

#[tactic(auto, unfolding(crate::specs::Trees::is_object))]
pub(crate) fn is_object(tree: &Json) -> bool
    ensures { result ≡ is_object tree.now }
{
    match tree {
        Json::Object(_) => true,
        _ => false,
    }
}

/// The members of an object; none of any other tree.
#[tactic(auto, unfolding(crate::specs::Trees::members_in))]
pub(crate) fn members_in(tree: &Json) -> &[Member]
    ensures { result.now ≡ members_in tree.now }
{
    match tree {
        Json::Object(members) => members.as_slice(),
        _ => &[],
    }
}

/// The value of an object's member of this name.
pub(crate) fn member<'a>(tree: &'a Json, name: &str) -> Option<&'a Json>
    ensures { MatchOption result (member_value tree.now name.now ≡ None) (λ value. member_value tree.now name.now ≡ Some value.now) }
{
    match tree.member(name) {
        Some(value) => Some(value),
        None => None,
    }
}

/// The text that an object's member of this name is.
#[tactic(auto, unfolding(crate::specs::Trees::text_member))]
pub(crate) fn text_member<'a>(tree: &'a Json, name: &str) -> Option<&'a Text>
    ensures { MatchOption result (text_member tree.now name.now ≡ None) (λ text. text_member tree.now name.now ≡ Some text.now) }
{
    match member(tree, name) {
        Some(value) => text_of(value),
        None => None,
    }
}

pub(crate) fn position_named(members: &[Member], name: &str) -> Option<usize>
    ensures { result ≡ position (is_named name.now) members.now }
{
    members
        .iter()
        .position(|member| member.name.as_str() == name)
}

/// The place of the first member of this name.
pub(crate) fn index_named(members: &[Member], name: &str) -> Option<usize>
    ensures { MatchOption result (value_in members.now name.now ≡ None)
        (λ at. (at < length members.now) × ((m : AMember) → m ≡ slice_index_or members.now at m → value_in members.now name.now ≡ Some (out-Member m).value)) }
{
    position_named(members, name)
}
