//! What a load leaves of one part.
ghost use Rattle.std.specs.Prelude.{◌≡◌, ◌∷◌, [], All, IfOk, IfSome, Some, None, option_map, take, drop};
ghost use Rattle.sc_bounds.specs.Sets.{join_of};
ghost use Rattle.sc_item.specs.Names.{AreApart};
ghost use Rattle.sc_part.specs.Scan.{shared};
ghost use Rattle.sc_history.specs.Changes.{is_among};
ghost use Rattle.sc_history.specs.History.{first_revision};
ghost use Rattle.sc_history.specs.Names.{Fits, scan_of};
ghost use Rattle.sc_history.specs.Touch.{made, renewed, stamped, unless_empty, widened};
ghost use Rattle.sc_shelf.specs.Changed.{IsChangeOf, changed, come_by};
ghost use Rattle.sc_shelf.specs.Shelf.{part_of};

use crate::change::PartChange;
use crate::kept::{KeptPart, Shelf};
use crate::version::SharedVersion;
use sc_bounds::{Bounds, join};
use sc_cut::PartName;
use sc_history::Addition;
use sc_item::Item;
use sc_part::{PartVersion, hull_of_items};
use std::alloc::{AllocError, Global};
use std::sync::Arc;

/// The number of additions that are kept of a part.
const KEPT: usize = 64;

/// The additions with one more, of which the last 64 are kept.
fn additions_with(
    alloc: Global,
    additions: &[Addition],
    newest: Addition,
) -> Result<Vec<Addition>, AllocError>
    ensures { IfOk result (λ v. v.items ≡ take 64 (newest ∷ additions.now)) }
{
    let room = additions.len().saturating_add(1).min(KEPT);
    let mut all = Vec::with_capacity(alloc, room)?;
    all.push(newest)?;
    for addition in additions {
        if all.len() == KEPT {
            return Ok(all);
        }
        all.push(*addition)?;
    }
    Ok(all)
}

/// The revision from which on additions are kept once there is one more.
fn kept_from_with(kept_from: u64, additions: &[Addition]) -> u64
    ensures { result ≡ first_revision kept_from (drop 63 additions.now) }
{
    match additions.get(KEPT - 1) {
        Some(addition) => addition.revision,
        None => kept_from,
    }
}

/// The part that is made of what comes; none where nothing comes.
fn make(
    alloc: Global,
    revision: u64,
    name: &PartName,
    come: &[Arc<Item>],
) -> Result<Option<KeptPart>, AllocError>
    requires fits { All (Fits name.now) (shared come.now) }
    requires apart { AreApart (shared come.now) }
    ensures { IfOk result (λ part. part ≡ unless_empty (made revision name.now (shared come.now))) }
{
    if come.is_empty() {
        return Ok(None);
    }
    let none = PartVersion::empty(alloc, name.try_clone(alloc)?);
    let version = none.with_changes(alloc, revision, &[], come)?;
    let hull = hull_of_items(come);
    let shelf = Shelf {
        version: SharedVersion::of(alloc, version)?,
        bounds: hull,
        kept_from: revision.saturating_sub(1),
        additions: additions_with(alloc, &[], Addition { revision, hull })?,
    };
    Ok(Some(KeptPart::of(alloc, shelf)?))
}

/// A part with a new version and nothing that came.
fn with_version(alloc: Global, old: &Shelf, version: SharedVersion) -> Result<Shelf, AllocError>
    ensures { IfOk result (λ shelf. part_of shelf ≡ record {
      name = version.name;
      stamp = version.stamp;
      items = version.items;
      bounds = old.now.bounds;
      kept_from = old.now.kept_from;
      additions = old.now.additions.items;
    }) }
{
    Ok(Shelf {
        version,
        bounds: old.bounds,
        kept_from: old.kept_from,
        additions: Vec::from_slice(alloc, &old.additions)?,
    })
}

/// A part with a new version, into which items with this hull came by a load of this revision.
fn with_hull(
    alloc: Global,
    old: &Shelf,
    version: SharedVersion,
    revision: u64,
    hull: Bounds,
) -> Result<Shelf, AllocError>
    ensures { IfOk result (λ shelf. part_of shelf ≡ record {
      name = version.name;
      stamp = version.stamp;
      items = version.items;
      bounds = join_of old.now.bounds hull;
      kept_from = first_revision old.now.kept_from (drop 63 old.now.additions.items);
      additions = take 64 (record { revision = revision; hull = hull } ∷ old.now.additions.items);
    }) }
{
    Ok(Shelf {
        version,
        bounds: join(&old.bounds, &hull),
        kept_from: kept_from_with(old.kept_from, &old.additions),
        additions: additions_with(alloc, &old.additions, Addition { revision, hull })?,
    })
}

/// The fields of a part whose items went out and came in; the version's are what is left.
fn renewed_shelf(
    alloc: Global,
    revision: u64,
    old: &Shelf,
    version: PartVersion,
    come: &[Arc<Item>],
) -> Result<Shelf, AllocError>
    requires name { version.name ≡ old.now.version.name }
    requires stamp { version.stamp ≡ revision }
    ensures { IfOk result (λ shelf. part_of shelf ≡ widened revision (shared come.now) (stamped revision version.items (part_of old.now))) }
{
    let hull = hull_of_items(come);
    let version = SharedVersion::of(alloc, version)?;
    if come.is_empty() {
        with_version(alloc, old, version)
    } else {
        with_hull(alloc, old, version, revision, hull)
    }
}

/// What is left of a part that is there.
fn renew(
    alloc: Global,
    revision: u64,
    change: &PartChange,
    part: &KeptPart,
) -> Result<Option<KeptPart>, AllocError>
    requires named { part.now.name ≡ change.now.name }
    requires is { IsChangeOf (Some part.now) change.now }
    ensures { IfOk result (λ new. new ≡ changed revision change.now.name (Some change.now) (Some part.now)) }
{
    let old = part.shelf();
    let gone = change.gone.as_slice();
    let come = change.come.as_slice();
    let version = old.version.get().with_changes(alloc, revision, gone, come)?;
    if version.len() == 0 {
        return Ok(None);
    }
    let shelf = renewed_shelf(alloc, revision, old, version, come)?;
    Ok(Some(KeptPart::of(alloc, shelf)?))
}

/// The part that a load of this revision leaves of one that is there or not; none where it has no item then.
pub(crate) fn touch(
    alloc: Global,
    revision: u64,
    change: &PartChange,
    part: Option<&KeptPart>,
) -> Result<Option<KeptPart>, AllocError>
    requires named { IfSome (option_map (λ part. part.now) part) (λ part. part.name ≡ change.now.name) }
    requires is { IsChangeOf (option_map (λ part. part.now) part) change.now }
    ensures { IfOk result (λ new. new ≡ changed revision change.now.name (Some change.now) (option_map (λ part. part.now) part.entry)) }
{
    match part {
        None => make(alloc, revision, &change.name, change.come.as_slice()),
        Some(part) => renew(alloc, revision, change, part),
    }
}
