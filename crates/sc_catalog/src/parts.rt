//! The parts that a load leaves.
ghost use Rattle.std.specs.Prelude.{◌≡◌, List, true, map, filter, is_some, IfOk};
ghost use Rattle.std.specs.Arc.{arc_value};
ghost use Rattle.sc_history.specs.Changes.{Change};
ghost use Rattle.sc_history.specs.Part.{lookup};
ghost use Rattle.sc_catalog.specs.Kept.{AreAfter, HasCut, IsCutAt, IsReady, IsReadyAt, change_of};
ghost use Rattle.sc_catalog.specs.Made.{is_of_items};

use crate::come::gone_of;
use crate::groups::changes_by;
use sc_cut::{Cut, PartName};
use sc_index::ItemIndex;
use sc_item::Item;
use sc_load::Load;
use sc_shelf::{Collections, PartChange, Parts};
use std::alloc::{AllocError, Global};
use std::sync::Arc;

/// The parts after a load, and the names of those that it touched and that are there.
#[derive(Drop)]
pub(crate) struct PartsAfter {
    pub parts: Parts,
    pub touched: Vec<PartName>,
}

/// The names of the changes whose parts are there.
fn names_left(
    alloc: Global,
    changes: &[PartChange],
    parts: &Parts,
) -> Result<Vec<PartName>, AllocError>
    ensures { IfOk result (λ names. names.items ≡ filter (λ name. is_some (lookup name parts.now)) (map (λ change. change.name) changes.now)) }
{
    let mut names = Vec::new(alloc);
    for change in changes {
        if parts.find(&change.name).is_some() {
            names.push(change.name.try_clone(alloc)?)?;
        }
    }
    Ok(names)
}

/// The parts after a load of items in a collection that is cut so.
fn cut_parts(
    alloc: Global,
    revision: u64,
    cut: Cut,
    parts: &Parts,
    index: &ItemIndex,
    load: &Load,
    come: &[Arc<Item>],
) -> Result<PartsAfter, AllocError>
    requires { HasCut revision cut parts.now index.now (change_of load.now (map arc_value come.now)) }
    ensures { IfOk result (λ after. (past : List Change) → IsCutAt past revision cut parts.now index.now (change_of load.now (map arc_value come.now)) → AreAfter past (change_of load.now (map arc_value come.now)) parts.now after) }
{
    let gone = gone_of(alloc, load)?;
    let changes = changes_by(alloc, index, load.collection(), cut, &gone, come)?;
    let new = parts.with_changes(alloc, revision, &changes)?;
    let touched = names_left(alloc, &changes, &new)?;
    Ok(PartsAfter {
        parts: new,
        touched,
    })
}

/// The parts after a load of items.
fn changed_parts(
    alloc: Global,
    revision: u64,
    collections: &Collections,
    parts: &Parts,
    index: &ItemIndex,
    load: &Load,
    come: &[Arc<Item>],
) -> Result<PartsAfter, AllocError>
    requires ready { IsReady revision collections.now parts.now index.now (change_of load.now (map arc_value come.now)) }
    requires items { is_of_items load.now ≡ true }
    ensures { IfOk result (λ after. (past : List Change) → IsReadyAt past revision collections.now parts.now index.now (change_of load.now (map arc_value come.now)) → AreAfter past (change_of load.now (map arc_value come.now)) parts.now after) }
{
    match collections.find(load.collection()) {
        Some(collection) => {
            let after = cut_parts(alloc, revision, collection.cut(), parts, index, load, come)?;
            Ok(after)
        }
        // A load of items is refused before where its collection isn't there.
        None => unreachable!(),
    }
}

/// The parts after a load that no fault up to its patch refuses.
pub(crate) fn parts_after(
    alloc: Global,
    revision: u64,
    collections: &Collections,
    parts: &Parts,
    index: &ItemIndex,
    load: &Load,
    come: &[Arc<Item>],
) -> Result<PartsAfter, AllocError>
    requires { IsReady revision collections.now parts.now index.now (change_of load.now (map arc_value come.now)) }
    ensures { IfOk result (λ after. (past : List Change) → IsReadyAt past revision collections.now parts.now index.now (change_of load.now (map arc_value come.now)) → AreAfter past (change_of load.now (map arc_value come.now)) parts.now after) }
{
    match load {
        Load::AddCollection { .. } => Ok(PartsAfter {
            parts: parts.share()?,
            touched: Vec::new(alloc),
        }),
        Load::DropCollection { id } => Ok(PartsAfter {
            parts: parts.without_collection(alloc, id)?,
            touched: Vec::new(alloc),
        }),
        _ => changed_parts(alloc, revision, collections, parts, index, load, come),
    }
}
