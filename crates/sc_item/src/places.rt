//! Where a member of a name stands: by a look at each member, or by a map where there are many.
ghost use Rattle.std.specs.Prelude.{◌≡◌, ◌<◌, ◌++◌, [], ◌∷◌, None, Some, IfOk, MatchOption, length, slice_index_or};
ghost use Rattle.std.specs.List.{position};
ghost use Rattle.sc_json.specs.declared.tree.Member.{out-Member, Member as AMember};
ghost use Rattle.sc_json.specs.Member.{value_in};
ghost use Rattle.sc_json.specs.Names.{has_name};
ghost use Rattle.sc_item.specs.Trees.{is_named};
ghost use Rattle.sc_item.specs.Places.{Agree, AgreeIfAny};

use crate::trees::position_named;
use sc_base::Text;
use sc_json::Member;
use std::alloc::{AllocError, Global};
use std::collections::BTreeMap;

/// From this number of members and of names to look up on, the places of the names are put into a map.
const MANY: usize = 24;

/// The place of the first member of each name.
pub(crate) type Places = BTreeMap<Text, usize>;

/// The places of the members' names, where there are many members and so many names will be looked up.
pub(crate) fn places_of(
    alloc: Global,
    members: &[Member],
    lookups: usize,
) -> Result<Option<Places>, AllocError>
    ensures { IfOk result (λ places. AgreeIfAny places members.now) }
{
    if members.len() < MANY || lookups < MANY {
        return Ok(None);
    }
    Ok(Some(all_places(alloc, members)?))
}

fn all_places(alloc: Global, members: &[Member]) -> Result<Places, AllocError>
    ensures { IfOk result (λ places. Agree places members.now) }
{
    let mut places = BTreeMap::new(alloc);
    for (i, member) in members.iter().enumerate() {
        places = insert_place(alloc, places, &members[..i], member)?;
    }
    Ok(places)
}

/// The places with the one of the next member, unless a member before it has its name.
fn insert_place(
    alloc: Global,
    mut places: Places,
    before: &[Member],
    member: &Member,
) -> Result<Places, AllocError>
    requires { Agree places before.now }
    ensures { IfOk result (λ more. Agree more (before.now ++ member.now ∷ [])) }
{
    if places.contains_key(&member.name) {
        return Ok(places);
    }
    let name = member.name.try_clone(alloc)?;
    places.insert(name, before.len())?;
    Ok(places)
}

fn position_in(places: &Option<Places>, members: &[Member], name: &Text) -> Option<usize>
    requires { AgreeIfAny places.now members.now }
    ensures { result ≡ position (is_named name.now) members.now }
{
    match places {
        None => position_named(members, name.as_str()),
        Some(places) => places.get(name).copied(),
    }
}

/// The place of the first member of this name.
pub(crate) fn index_in(places: &Option<Places>, members: &[Member], name: &Text) -> Option<usize>
    requires { AgreeIfAny places.now members.now }
    ensures { MatchOption result (value_in members.now name.now ≡ None)
        (λ at. (at < length members.now) × ((m : AMember) → m ≡ slice_index_or members.now at m → value_in members.now name.now ≡ Some (out-Member m).value)) }
{
    position_in(places, members, name)
}

/// Whether a member has this name.
pub(crate) fn has_in(places: &Option<Places>, members: &[Member], name: &Text) -> bool
    requires { AgreeIfAny places.now members.now }
    ensures { result ≡ has_name members.now name.now }
{
    position_in(places, members, name).is_some()
}
