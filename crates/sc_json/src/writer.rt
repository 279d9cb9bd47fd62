ghost use Rattle.std.specs.Prelude.{◌≡◌, ◌++◌, IfOk, OnOk, string_bytes};
ghost use Rattle.sc_json.specs.Compact.{compact, elements_text, members_text, member_text};
ghost use Rattle.sc_json.specs.Good.{Good};
ghost use Rattle.sc_json.specs.Spells.{Spells};

use crate::quote::push_quoted;
use crate::tree::{Json, Member};
use sc_base::Text;
use std::alloc::{AllocError, Global};

/// Adds the compact text of a tree: no white space, members and elements in their order, numbers as they were sent,
/// texts as [`push_quoted`] writes them. Where memory runs out a part of it may have been added.
#[cycle(push)]
#[tactic(auto, unfolding(crate::specs::Compact::compact))]
pub fn push_json(out: &mut String, tree: &Json) -> Result<(), AllocError>
    ensures { OnOk result (string_bytes out.new ≡ string_bytes out.old ++ compact tree.now) }
{
    match tree {
        Json::Null => out.push_str("null"),
        Json::Truth(true) => out.push_str("true"),
        Json::Truth(false) => out.push_str("false"),
        Json::Number(number) => out.push_str(number.literal.as_str()),
        Json::Text(text) => push_quoted(out, text.as_str()),
        Json::List(elements) => {
            out.push('[')?;
            push_elements(out, elements.as_slice())?;
            out.push(']')?;
            Ok(())
        }
        Json::Object(members) => {
            out.push('{')?;
            push_members(out, members.as_slice())?;
            out.push('}')?;
            Ok(())
        }
    }
}

#[cycle(push)]
fn push_elements(out: &mut String, elements: &[Json]) -> Result<(), AllocError>
    ensures { OnOk result (string_bytes out.new ≡ string_bytes out.old ++ elements_text elements.now) }
{
    let Some((first, rest)) = elements.split_first() else {
        return Ok(());
    };
    push_json(out, first)?;
    for element in rest {
        out.push(',')?;
        push_json(out, element)?;
    }
    Ok(())
}

#[cycle(push)]
fn push_members(out: &mut String, members: &[Member]) -> Result<(), AllocError>
    ensures { OnOk result (string_bytes out.new ≡ string_bytes out.old ++ members_text members.now) }
{
    let Some((first, rest)) = members.split_first() else {
        return Ok(());
    };
    push_member(out, first)?;
    for member in rest {
        out.push(',')?;
        push_member(out, member)?;
    }
    Ok(())
}

#[cycle(push)]
fn push_member(out: &mut String, member: &Member) -> Result<(), AllocError>
    ensures { OnOk result (string_bytes out.new ≡ string_bytes out.old ++ member_text member.now) }
{
    push_quoted(out, member.name.as_str())?;
    out.push(':')?;
    push_json(out, &member.value)?;
    Ok(())
}

/// The compact text of a tree. That of a good tree spells it, so that it is read as the same tree.
pub fn write_json(alloc: Global, tree: &Json) -> Result<Text, AllocError>
    ensures text { IfOk result (λ text. text ≡ compact tree.now) }
    ensures spells { Good tree.now → IfOk result (λ text. Spells text tree.now) }
{
    let mut out = String::new(alloc);
    push_json(&mut out, tree)?;
    Ok(Text::from_string(out))
}
