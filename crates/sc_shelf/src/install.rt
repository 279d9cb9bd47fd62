//! What an install of a hull leaves of a list of parts.
ghost use Rattle.std.specs.Prelude.{◌≡◌, ◌++◌, IfOk, OnOk, IsTrue, Some, option_map};
ghost use Rattle.std.specs.Option.{option_to_list};
ghost use Rattle.sc_history.specs.History.{join_all};
ghost use Rattle.sc_history.specs.Installs.{AreInstalled, answer, bounds_after, installed, later, with_bounds};
ghost use Rattle.sc_history.specs.Part.{AreInOrder, lookup};
ghost use Rattle.sc_shelf.specs.Shelf.{part_of};

use crate::kept::{KeptPart, Shelf};
use crate::publish::push_all;
use crate::split::split_at;
use crate::ticket::Tight;
use sc_bounds::{Bounds, join, meet};
use sc_history::{Addition, Installed};
use std::alloc::{AllocError, Global};

/// The hull, joined with the additions after a revision.
fn join_later(hull: &Bounds, stamp: u64, additions: &[Addition]) -> Bounds
    ensures { result ≡ join_all hull.now (later stamp additions.now) }
{
    let mut all = *hull;
    for i in 0..additions.len() {
        let addition = additions[additions.len() - 1 - i];
        if stamp < addition.revision {
            all = join(&addition.hull, &all);
        }
    }
    all
}

/// What an install of a hull that the part's items had at a revision answers.
fn answer_of(shelf: &Shelf, stamp: u64) -> Installed
    ensures { result ≡ answer stamp (Some (part_of shelf.now)) }
{
    if stamp == shelf.version.get().stamp() {
        Installed::Exact
    } else if stamp < shelf.kept_from {
        Installed::TooOld {
            kept_from: shelf.kept_from,
        }
    } else {
        Installed::Joined
    }
}

/// The bounds that it leaves.
fn bounds_with(shelf: &Shelf, stamp: u64, hull: &Bounds) -> Bounds
    ensures { result ≡ bounds_after stamp hull.now (part_of shelf.now) }
{
    if stamp == shelf.version.get().stamp() {
        *hull
    } else if shelf.kept_from <= stamp {
        meet(&shelf.bounds, &join_later(hull, stamp, &shelf.additions))
    } else {
        shelf.bounds
    }
}

/// The part with other bounds; its version is shared.
fn rebounded(alloc: Global, shelf: &Shelf, bounds: Bounds) -> Result<KeptPart, AllocError>
    ensures { IfOk result (λ part. part ≡ with_bounds bounds (part_of shelf.now)) }
{
    KeptPart::of(
        alloc,
        Shelf {
            version: shelf.version.share()?,
            bounds,
            kept_from: shelf.kept_from,
            additions: Vec::from_slice(alloc, &shelf.additions)?,
        },
    )
}

/// The part after an install.
fn installed_part(alloc: Global, part: &KeptPart, tight: &Tight) -> Result<KeptPart, AllocError>
    ensures { IfOk result (λ new. new ≡ installed tight.now.stamp tight.now.bounds part.now) }
{
    let shelf = part.shelf();
    rebounded(
        alloc,
        shelf,
        bounds_with(shelf, tight.stamp(), &tight.bounds()),
    )
}

/// What an install answers where there is such a part or not.
fn answer_at(part: Option<&KeptPart>, stamp: u64) -> Installed
    ensures { result ≡ answer stamp (option_map (λ part. part.now) part.entry) }
{
    match part {
        None => Installed::Gone,
        Some(part) => answer_of(part.shelf(), stamp),
    }
}

/// Puts the part after an install at the end, where there is one.
fn push_installed(
    alloc: Global,
    new: &mut Vec<KeptPart>,
    part: Option<&KeptPart>,
    tight: &Tight,
) -> Result<(), AllocError>
    ensures { OnOk result (new.new.items ≡ new.old.items ++ option_to_list (option_map (installed tight.now.stamp tight.now.bounds) (option_map (λ part. part.now) part.entry))) }
{
    if let Some(part) = part {
        new.push(installed_part(alloc, part, tight)?)?;
    }
    Ok(())
}

/// The parts after an install.
pub(crate) fn installed_parts(
    alloc: Global,
    old: &[KeptPart],
    tight: &Tight,
) -> Result<Vec<KeptPart>, AllocError>
    requires { AreInOrder old.now }
    ensures { IfOk result (λ new. AreInstalled tight.now.name tight.now.stamp tight.now.bounds old.now new.items) }
{
    let split = split_at(old, tight.name());
    let mut new = Vec::with_capacity(alloc, old.len())?;
    push_all(&mut new, split.before)?;
    push_installed(alloc, &mut new, split.here, tight)?;
    push_all(&mut new, split.after)?;
    Ok(new)
}

/// Whether two bounds are the same.
fn is_same(a: &Bounds, b: &Bounds) -> bool
    ensures { IsTrue result → a.now ≡ b.now }
{
    a == b
}

/// Whether an install leaves all bounds as they are: there is no such part, or its bounds are those already that the install
/// leaves.
pub(crate) fn leaves_bounds(old: &[KeptPart], tight: &Tight) -> bool
    requires { AreInOrder old.now }
    ensures { IsTrue result → AreInstalled tight.now.name tight.now.stamp tight.now.bounds old.now old.now }
{
    match split_at(old, tight.name()).here {
        None => true,
        Some(part) => {
            let bounds = bounds_with(part.shelf(), tight.stamp(), &tight.bounds());
            is_same(&bounds, &part.bounds())
        }
    }
}

/// What it answers.
pub(crate) fn install_answer(old: &[KeptPart], tight: &Tight) -> Installed
    requires { AreInOrder old.now }
    ensures { result ≡ answer tight.now.stamp (lookup tight.now.name old.now) }
{
    answer_at(split_at(old, tight.name()).here, tight.stamp())
}
