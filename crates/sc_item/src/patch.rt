ghost use Rattle.std.specs.Prelude.{◌≡◌, ◌++◌, List, IfOk, OnOk};
ghost use Rattle.sc_json.specs.declared.tree.Member.{Member as AMember};
ghost use Rattle.sc_json.specs.Good.{Good};
ghost use Rattle.sc_item.specs.Places.{AgreeIfAny};
ghost use Rattle.sc_item.specs.Patch.{Patched, Leaves, AreKept, Adds, AreAdded};

use crate::places::{Places, has_in, index_in, places_of};
use crate::trees::{is_null, members_in};
use sc_base::Seq;
use sc_json::{Json, Member};
use std::alloc::{AllocError, Global};

#[cycle(patch)]
fn patched(alloc: Global, patch: &Json, target: &Json) -> Result<Json, AllocError>
    ensures { IfOk result (Patched target.now patch.now) }
{
    match patch {
        Json::Object(changes) => {
            let members = changed(alloc, changes.as_slice(), members_in(target))?;
            Ok(Json::Object(Seq::of(members)))
        }
        _ => patch.try_clone(alloc),
    }
}

/// The members that stay, and behind them those that are new.
#[cycle(patch)]
fn changed(alloc: Global, changes: &[Member], members: &[Member]) -> Result<Vec<Member>, AllocError>
    ensures { IfOk result (λ all. (kept added : List AMember) × (all.items ≡ kept ++ added) ×
        AreKept changes.now members.now kept × AreAdded members.now changes.now added) }
{
    let change_places = &places_of(alloc, changes, members.len())?;
    let member_places = &places_of(alloc, members, changes.len())?;
    let mut all = Vec::with_capacity(alloc, members.len())?;
    for member in members {
        keep(alloc, change_places, changes, member, &mut all)?;
    }
    for change in changes {
        add(alloc, change, member_places, members, &mut all)?;
    }
    Ok(all)
}

/// Adds what the changes leave of a member.
#[cycle(patch)]
fn keep(
    alloc: Global,
    places: &Option<Places>,
    changes: &[Member],
    member: &Member,
    all: &mut Vec<Member>,
) -> Result<(), AllocError>
    requires { AgreeIfAny places.now changes.now }
    ensures { OnOk result ((front : List AMember) × (all.new.items ≡ all.old.items ++ front) × Leaves changes.now member.now front) }
{
    match index_in(places, changes, &member.name) {
        None => {
            let name = member.name.try_clone(alloc)?;
            let value = member.value.try_clone(alloc)?;
            all.push(Member { name, value })?;
            Ok(())
        }
        Some(at) => {
            let change = &changes[at].value;
            if is_null(change) {
                return Ok(());
            }
            let name = member.name.try_clone(alloc)?;
            let value = patched(alloc, change, &member.value)?;
            all.push(Member { name, value })?;
            Ok(())
        }
    }
}

/// Adds what a change adds to the members.
#[cycle(patch)]
fn add(
    alloc: Global,
    change: &Member,
    places: &Option<Places>,
    members: &[Member],
    all: &mut Vec<Member>,
) -> Result<(), AllocError>
    requires { AgreeIfAny places.now members.now }
    ensures { OnOk result ((front : List AMember) × (all.new.items ≡ all.old.items ++ front) × Adds members.now change.now front) }
{
    if has_in(places, members, &change.name) {
        return Ok(());
    }
    if is_null(&change.value) {
        return Ok(());
    }
    let name = change.name.try_clone(alloc)?;
    let value = patched(alloc, &change.value, &Json::Null)?;
    all.push(Member { name, value })?;
    Ok(())
}

/// What a patch makes of a target (RFC 7396). Members that stay keep their places, and new ones stand behind them in the
/// patch's order.
pub fn merge_patch(alloc: Global, target: &Json, patch: &Json) -> Result<Json, AllocError>
    ensures patched { IfOk result (Patched target.now patch.now) }
    ensures good { Good target.now → Good patch.now → IfOk result Good }
{
    patched(alloc, patch, target)
}
