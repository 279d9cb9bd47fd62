ghost use Rattle.std.specs.Prelude.{◌≡◌, IfSome, length};
ghost use Rattle.std.specs.List.{AllByRecursion, list_any};
ghost use Rattle.std.specs.Option.{option_and_then, option_copied};
ghost use Rattle.sc_json.specs.declared.tree.Json.TheViews.{out-Json};
ghost use Rattle.sc_json.specs.Member.{member_value, members_of, value_in};
ghost use Rattle.sc_json.specs.Views.{list_of, text_member};
ghost use Rattle.sc_script.specs.Members.{as_name, as_object, is_mark, part_key, publisher, whole_number, whole_of};
ghost use Rattle.sc_script.specs.Step.{StandsWithin, of_whole};
ghost use Rattle.sc_json.specs.Good.{Good};

use sc_base::{Seq, Text};
use sc_json::{Json, Member, Num};

/// The most bytes of a name.
const MOST_NAME: usize = 64;

/// The number of members of an object, and 0 of any other tree.
pub(crate) fn size_of(tree: &Json) -> usize
    ensures { result ≡ length (members_of (out-Json tree.now)) }
{
    match tree {
        Json::Object(members) => members.len(),
        _ => 0,
    }
}

/// The text, if it may be a name.
fn as_name(text: &Text) -> Option<&Text>
    ensures { option_copied result ≡ as_name text.now }
{
    if text.is_empty() || text.len() > MOST_NAME {
        None
    } else {
        Some(text)
    }
}

/// The name that a member is.
pub(crate) fn name_at<'a>(tree: &'a Json, name: &str) -> Option<&'a Text>
    ensures { option_copied result ≡ option_and_then as_name (text_member tree.now name.now) }
{
    match tree.text_member(name) {
        Some(text) => as_name(text),
        None => None,
    }
}

/// Whether a byte stands in a fraction or an exponent alone.
fn is_mark(byte: u8) -> bool
    ensures { result ≡ is_mark byte }
{
    matches!(byte, b'+' | b'.' | b'E' | b'e')
}

/// Whether a fraction or an exponent stands in a literal.
fn has_mark(literal: &[u8]) -> bool
    ensures { result ≡ list_any is_mark literal.now }
{
    literal.iter().any(|byte| is_mark(*byte))
}

/// The value of a number without fraction and exponent.
fn whole_number(number: &Num) -> Option<i128>
    ensures { result ≡ whole_number number.now }
{
    if has_mark(number.literal.bytes()) {
        return None;
    }
    number.dec.to_integer()
}

/// The whole number that a tree is.
#[tactic(auto, unfolding(crate::specs::Members::whole_of))]
fn whole_of(tree: &Json) -> Option<i128>
    ensures { result ≡ whole_of tree.now }
{
    match tree {
        Json::Number(number) => whole_number(number),
        _ => None,
    }
}

/// The whole number that a member is.
fn whole_at(tree: &Json, name: &str) -> Option<i128>
    ensures { result ≡ of_whole tree.now name.now }
{
    match tree.member(name) {
        Some(value) => whole_of(value),
        None => None,
    }
}

/// The number of a publisher that a member is.
pub(crate) fn publisher_at(tree: &Json, name: &str) -> Option<u32>
    ensures { result ≡ option_and_then publisher (of_whole tree.now name.now) }
{
    let number = whole_at(tree, name)?;
    if number < 0 || number > i128::from(u32::MAX) {
        return None;
    }
    Some(number as u32)
}

/// The key of a part that a member is.
pub(crate) fn key_at(tree: &Json, name: &str) -> Option<i32>
    ensures { result ≡ option_and_then part_key (of_whole tree.now name.now) }
{
    let number = whole_at(tree, name)?;
    if number < i128::from(i32::MIN) || number > i128::from(i32::MAX) {
        return None;
    }
    Some(number as i32)
}

/// The value of the first member of this name, taken out of the members.
fn into_value(members: Seq<Member>, name: &str) -> Option<Json>
    ensures { result ≡ value_in members name.now }
{
    for member in members.into_vec() {
        if member.name.as_str() == name {
            let Member { name: _name, value } = member;
            return Some(value);
        }
    }
    None
}

/// The value of an object's member of this name, taken out of the tree.
pub(crate) fn into_member(tree: Json, name: &str) -> Option<Json>
    ensures value { result ≡ member_value tree name.now }
    ensures good { Good tree → IfSome result (StandsWithin 1) }
{
    match tree {
        Json::Object(members) => into_value(members, name),
        _ => None,
    }
}

/// The elements of the list that a tree is, taken out of it.
#[tactic(auto, unfolding(sc_json::specs::Views::list_of))]
fn into_elements(tree: Json) -> Option<Seq<Json>>
    ensures value { result ≡ list_of tree }
    ensures good { StandsWithin 1 tree → IfSome result (AllByRecursion (StandsWithin 2)) }
{
    match tree {
        Json::List(elements) => Some(elements),
        _ => None,
    }
}

/// The elements of the list that a member is, taken out of the tree.
pub(crate) fn into_list(tree: Json, name: &str) -> Option<Seq<Json>>
    ensures value { result ≡ option_and_then list_of (member_value tree name.now) }
    ensures good { Good tree → IfSome result (AllByRecursion (StandsWithin 2)) }
{
    match into_member(tree, name) {
        Some(value) => into_elements(value),
        None => None,
    }
}

/// The object that a member is, taken out of the tree.
#[tactic(auto, unfolding(crate::specs::Members::as_object))]
pub(crate) fn into_object(tree: Json, name: &str) -> Option<Json>
    ensures value { result ≡ option_and_then as_object (member_value tree name.now) }
    ensures good { Good tree → IfSome result Good }
{
    match into_member(tree, name) {
        Some(Json::Object(members)) => Some(Json::Object(members)),
        _ => None,
    }
}
