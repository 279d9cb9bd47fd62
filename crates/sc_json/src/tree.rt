ghost use Rattle.std.specs.Prelude.{◌≡◌, IfOk};
ghost use Rattle.std.specs.Option.{option_copied};
ghost use Rattle.sc_json.specs.Member.{member_value, value_in};
ghost use Rattle.sc_json.specs.Views.{is_null, text_of, number_of, list_of, object_of, text_member};

use crate::copy::copy_json;
use sc_base::{Seq, Text};
use sc_decimal::Dec;
use std::alloc::{AllocError, Global};

/// A number: its literal as it was sent, and its value.
#[derive(Debug, Drop)]
pub struct Num {
    pub literal: Text,
    pub dec: Dec,
}

/// A JSON tree. Numbers keep their literals, objects the order of their members.
#[cycle(json)]
#[derive(Debug, Drop)]
pub enum Json {
    Null,
    Truth(bool),
    Number(Num),
    Text(Text),
    List(Seq<Json>),
    Object(Seq<Member>),
}

/// A member of an object.
#[cycle(json)]
#[derive(Debug, Drop)]
pub struct Member {
    pub name: Text,
    pub value: Json,
}

impl Json {
    /// The value of the first member with this name; none where there is none, or where the tree is no object.
    pub fn member(&self, name: &str) -> Option<&Json>
        ensures { option_copied result ≡ member_value self.now name.now }
    {
        match self {
            Json::Object(members) => find_member(members.as_slice(), name),
            _ => None,
        }
    }

    /// Whether the tree is null.
    #[tactic(auto, unfolding(crate::specs::Views::is_null))]
    pub fn is_null(&self) -> bool
        ensures { result ≡ is_null self.now }
    {
        matches!(self, Json::Null)
    }

    /// The text that the tree is; none where it is no text.
    #[tactic(auto, unfolding(crate::specs::Views::text_of))]
    pub fn as_text(&self) -> Option<&Text>
        ensures { option_copied result ≡ text_of self.now }
    {
        match self {
            Json::Text(text) => Some(text),
            _ => None,
        }
    }

    /// The value of the number that the tree is; none where it is no number.
    #[tactic(auto, unfolding(crate::specs::Views::number_of))]
    pub fn as_number(&self) -> Option<&Dec>
        ensures { option_copied result ≡ number_of self.now }
    {
        match self {
            Json::Number(number) => Some(&number.dec),
            _ => None,
        }
    }

    /// The elements of the list that the tree is; none where it is no list.
    #[tactic(auto, unfolding(crate::specs::Views::list_of))]
    pub fn as_list(&self) -> Option<&[Json]>
        ensures { option_copied result ≡ list_of self.now }
    {
        match self {
            Json::List(elements) => Some(elements.as_slice()),
            _ => None,
        }
    }

    /// The members of the object that the tree is; none where it is no object.
    #[tactic(auto, unfolding(crate::specs::Views::object_of))]
    pub fn as_object(&self) -> Option<&[Member]>
        ensures { option_copied result ≡ object_of self.now }
    {
        match self {
            Json::Object(members) => Some(members.as_slice()),
            _ => None,
        }
    }

    /// The text that the first member with this name is; none where there is none, or where it is no text.
    #[tactic(auto, unfolding(crate::specs::Views::text_member))]
    pub fn text_member(&self, name: &str) -> Option<&Text>
        ensures { option_copied result ≡ text_member self.now name.now }
    {
        match self.member(name) {
            Some(value) => value.as_text(),
            None => None,
        }
    }

    /// A copy of the tree.
    pub fn try_clone(&self, alloc: Global) -> Result<Json, AllocError>
        ensures { IfOk result (λ copy. copy ≡ self.now) }
    {
        copy_json(alloc, self)
    }
}

/// The value of the first of these members with this name.
pub fn find_member<'a>(members: &'a [Member], name: &str) -> Option<&'a Json>
    ensures { option_copied result ≡ value_in members.now name.now }
{
    for member in members {
        if member.name.as_str() == name {
            return Some(&member.value);
        }
    }
    None
}
