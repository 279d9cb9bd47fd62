ghost use Rattle.std.specs.Prelude.{◌≡◌, IfOk};

use crate::tree::{Json, Member, Num};
use sc_base::Seq;
use std::alloc::{AllocError, Global};

#[cycle(copy)]
pub(crate) fn copy_json(alloc: Global, tree: &Json) -> Result<Json, AllocError>
    ensures { IfOk result (λ copy. copy ≡ tree.now) }
{
    match tree {
        Json::Null => Ok(Json::Null),
        Json::Truth(truth) => Ok(Json::Truth(*truth)),
        Json::Number(number) => Ok(Json::Number(Num {
            literal: number.literal.try_clone(alloc)?,
            dec: number.dec,
        })),
        Json::Text(text) => Ok(Json::Text(text.try_clone(alloc)?)),
        Json::List(elements) => {
            let copies = copy_elements(alloc, elements.as_slice())?;
            Ok(Json::List(Seq::of(copies)))
        }
        Json::Object(members) => {
            let copies = copy_members(alloc, members.as_slice())?;
            Ok(Json::Object(Seq::of(copies)))
        }
    }
}

#[cycle(copy)]
fn copy_elements(alloc: Global, elements: &[Json]) -> Result<Vec<Json>, AllocError>
    ensures { IfOk result (λ copies. copies.items ≡ elements.now) }
{
    let mut copies = Vec::with_capacity(alloc, elements.len())?;
    for element in elements {
        copies.push(copy_json(alloc, element)?)?;
    }
    Ok(copies)
}

#[cycle(copy)]
fn copy_members(alloc: Global, members: &[Member]) -> Result<Vec<Member>, AllocError>
    ensures { IfOk result (λ copies. copies.items ≡ members.now) }
{
    let mut copies = Vec::with_capacity(alloc, members.len())?;
    for member in members {
        copies.push(copy_member(alloc, member)?)?;
    }
    Ok(copies)
}

#[cycle(copy)]
pub(crate) fn copy_member(alloc: Global, member: &Member) -> Result<Member, AllocError>
    ensures { IfOk result (λ copy. copy ≡ member.now) }
{
    Ok(Member {
        name: member.name.try_clone(alloc)?,
        value: copy_json(alloc, &member.value)?,
    })
}
