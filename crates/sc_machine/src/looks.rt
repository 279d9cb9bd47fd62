//! Steps that take snapshots and look at parts.
ghost use Rattle.std.specs.Prelude.{IfOk};
ghost use Rattle.sc_machine.specs.State.{named};
ghost use Rattle.sc_machine.specs.Looks.{LooksAt, TakesLook, TakesSnapshot};
ghost use Rattle.sc_machine.specs.Inside.{Hulls, IsKept, IsPartAt, Snaps, state_of};

use sc_base::Text;
use sc_catalog::{Catalogue, PartName, Snapshot, Tight};
use sc_outcome::{Outcome, name_taken};
use std::alloc::{AllocError, Global};
use std::collections::BTreeMap;

/// Takes a snapshot, which gets a name.
pub(crate) fn take_snapshot(
    alloc: Global,
    catalogue: &Catalogue,
    snapshots: &mut BTreeMap<Text, Snapshot>,
    name: Text,
) -> Result<Outcome, AllocError>
    ensures told { IfOk result (λ outcome. (hulls : Hulls) →
        TakesSnapshot name (named name (state_of catalogue.now snapshots.old hulls).snapshots) (state_of catalogue.now snapshots.old hulls) (state_of catalogue.now snapshots.new hulls) outcome) }
    ensures kept { (hulls : Hulls) → IsKept catalogue.now.entries snapshots.old hulls → IsKept catalogue.now.entries snapshots.new hulls }
{
    if snapshots.contains_key(&name) {
        return name_taken(alloc, name);
    }
    let snapshot = catalogue.snapshot(alloc)?;
    let revision = snapshot.revision();
    snapshots.insert(name, snapshot)?;
    Ok(Outcome::Revision { revision })
}

/// The name of a collection's part with a key; none where the collection isn't there.
fn part_named(
    alloc: Global,
    catalogue: &Catalogue,
    collection: Text,
    key: i32,
) -> Result<Option<PartName>, AllocError>
    ensures { IfOk result (IsPartAt catalogue.now.entries collection key) }
{
    let snapshot = catalogue.snapshot(alloc)?;
    match snapshot.cut_of(&collection) {
        Some(cut) => Ok(Some(PartName {
            collection,
            cut,
            key,
        })),
        None => Ok(None),
    }
}

/// Looks at a part, and gives a name to its ticket.
fn look_at(
    alloc: Global,
    catalogue: &Catalogue,
    tickets: &mut BTreeMap<Text, Tight>,
    name: Text,
    collection: Text,
    key: i32,
) -> Result<Outcome, AllocError>
    ensures told { IfOk result (λ outcome. (snaps : Snaps) → LooksAt name collection key (state_of catalogue.now snaps tickets.old) (state_of catalogue.now snaps tickets.new) outcome) }
    ensures kept { (snaps : Snaps) → IsKept catalogue.now.entries snaps tickets.old → IsKept catalogue.now.entries snaps tickets.new }
{
    let Some(part) = part_named(alloc, catalogue, collection, key)? else {
        return Ok(Outcome::Gone);
    };
    match catalogue.look(alloc, &part)? {
        Some(ticket) => {
            let stamp = ticket.stamp();
            tickets.insert(name, ticket.tighten())?;
            Ok(Outcome::Stamp { stamp })
        }
        None => Ok(Outcome::Gone),
    }
}

/// Looks at a part, unless another ticket has the name that its ticket is to get.
pub(crate) fn take_look(
    alloc: Global,
    catalogue: &Catalogue,
    tickets: &mut BTreeMap<Text, Tight>,
    name: Text,
    collection: Text,
    key: i32,
) -> Result<Outcome, AllocError>
    ensures told { IfOk result (λ outcome. (snaps : Snaps) →
        TakesLook name (named name (state_of catalogue.now snaps tickets.old).tickets) collection key (state_of catalogue.now snaps tickets.old) (state_of catalogue.now snaps tickets.new) outcome) }
    ensures kept { (snaps : Snaps) → IsKept catalogue.now.entries snaps tickets.old → IsKept catalogue.now.entries snaps tickets.new }
{
    if tickets.contains_key(&name) {
        return name_taken(alloc, name);
    }
    look_at(alloc, catalogue, tickets, name, collection, key)
}
