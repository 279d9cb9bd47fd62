ghost use Rattle.std.specs.Prelude.{◌≡◌, ◌<◌, Some, None, MatchOption, IfSome, length, nat_eq, position};
ghost use Rattle.std.specs.Cmp.Lexicographic.{pointwise};
ghost use Rattle.sc_json.specs.declared.tree.Member.{out-Member};
ghost use Rattle.sc_geom.specs.Tree.{list_of, members_of, text_of, number_of, member_named, index_named};
ghost use Rattle.sc_geom.specs.Depicts.{kind_in};
ghost use Rattle.sc_geom.specs.Drawn.{elements_of};

use crate::kind::{Kind, kind_named, type_name};
use sc_decimal::Dec;
use sc_json::{Json, Member};

#[tactic(auto, unfolding(crate::specs::Tree::list_of))]
pub(crate) fn list_of(tree: &Json) -> Option<&[Json]>
    ensures { MatchOption result (list_of tree.now ≡ None) (λ elements. list_of tree.now ≡ Some elements.now) }
{
    match tree {
        Json::List(elements) => Some(elements.as_slice()),
        _ => None,
    }
}

/// The elements of a list that isn't empty.
#[tactic(auto, unfolding(crate::specs::Drawn::elements_of))]
pub(crate) fn elements_of(tree: &Json) -> Option<&[Json]>
    ensures elements { MatchOption result (elements_of tree.now ≡ None)
        (λ elements. elements_of tree.now ≡ Some elements.now) }
    ensures some { IfSome result (λ elements. 0 < length elements.now) }
{
    match list_of(tree) {
        Some(elements) => {
            if elements.is_empty() {
                None
            } else {
                Some(elements)
            }
        }
        None => None,
    }
}

#[tactic(auto, unfolding(crate::specs::Tree::number_of))]
pub(crate) fn number_of(tree: &Json) -> Option<&Dec>
    ensures { MatchOption result (number_of tree.now ≡ None) (λ number. number_of tree.now ≡ Some number.now) }
{
    match tree {
        Json::Number(number) => Some(&number.dec),
        _ => None,
    }
}

#[tactic(auto, unfolding(crate::specs::Tree::text_of))]
pub(crate) fn text_of(tree: &Json) -> Option<&[u8]>
    ensures { MatchOption result (text_of tree.now ≡ None) (λ text. text_of tree.now ≡ Some text.now) }
{
    match tree {
        Json::Text(text) => Some(text.bytes()),
        _ => None,
    }
}

/// The place of the first member of a name.
pub(crate) fn index_named(members: &[Member], name: &[u8]) -> Option<usize>
    ensures { result ≡ index_named name.now members.now }
{
    members
        .iter()
        .position(|member| member.name.bytes() == name)
}

/// The value of the first member of a name.
pub(crate) fn member_named<'a>(members: &'a [Member], name: &[u8]) -> Option<&'a Json>
    ensures { MatchOption result (member_named name.now members.now ≡ None)
        (λ value. member_named name.now members.now ≡ Some value.now) }
{
    match index_named(members, name) {
        Some(at) => Some(&members[at].value),
        None => None,
    }
}

/// The kind that the member `type` names.
#[tactic(auto, unfolding(crate::specs::Depicts::kind_in))]
pub(crate) fn kind_in(members: &[Member]) -> Option<Kind>
    ensures { result ≡ kind_in members.now }
{
    let value = member_named(members, type_name())?;
    let name = text_of(value)?;
    kind_named(name)
}
