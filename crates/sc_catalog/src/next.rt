//! What a load leaves of a catalogue, made beside it, or the fault for which it is refused.
ghost use Rattle.std.specs.Prelude.{◌≡◌, List, IfOk};
ghost use Rattle.sc_load.specs.Load.{IsWellFormed};
ghost use Rattle.sc_history.specs.Changes.{Change, collections_after};
ghost use Rattle.sc_catalog.specs.Kept.{AnswersAdmitted, AnswersNext, HasPast, Reflects};

use crate::come::come_of;
use crate::limits::{refuse_collections, refuse_full, refuse_parts};
use crate::parts::parts_after;
use crate::refusal::refuse_plainly;
use sc_cut::PartName;
use sc_index::ItemIndex;
use sc_item::Item;
use sc_load::{Load, LoadFault};
use sc_shelf::{Collections, Parts};
use std::alloc::{AllocError, Global};
use std::sync::Arc;

/// What a load leaves of a catalogue.
#[derive(Drop)]
pub(crate) struct Next {
    /// The bytes of the loads of its history.
    pub bytes: u64,
    pub collections: Collections,
    pub parts: Parts,
    /// The names of the parts that it touched and that are there.
    pub touched: Vec<PartName>,
    /// The items that it puts.
    pub come: Vec<Arc<Item>>,
}

/// The collections after a load.
fn collections_after(
    alloc: Global,
    collections: &Collections,
    load: &Load,
) -> Result<Collections, AllocError>
    ensures { IfOk result (λ new. new ≡ collections_after collections.now load.now) }
{
    match load {
        Load::AddCollection { id, cut, tree } => collections.with(alloc, id, *cut, tree),
        Load::DropCollection { id } => collections.without(alloc, id),
        _ => collections.share(),
    }
}

/// The items that a load puts, and the bytes of the history with it.
#[derive(Drop)]
pub(crate) struct Admitted {
    pub come: Vec<Arc<Item>>,
    pub bytes: u64,
}

/// The items that a load puts, or the first fault up to those of the history's limits.
fn admit(
    alloc: Global,
    revision: u64,
    bytes: u64,
    collections: &Collections,
    parts: &Parts,
    index: &ItemIndex,
    load: &Load,
) -> Result<Admitted, LoadFault>
    requires formed { IsWellFormed load.now }
    requires past { HasPast revision bytes collections.now parts.now index.now }
    ensures { (past : List Change) → Reflects past revision bytes collections.now parts.now index.now → AnswersAdmitted past load.now result }
{
    let made = collections.find(load.collection()).is_some();
    refuse_plainly(alloc, made, index, load)?;
    let come = come_of(alloc, index, load)?;
    let bytes = bytes.saturating_add(load.size(alloc)?);
    refuse_full(revision, bytes)?;
    Ok(Admitted { come, bytes })
}

/// What a load leaves of a catalogue that has these fields, or the first fault that holds. `revision` is that of the load.
pub(crate) fn prepare(
    alloc: Global,
    revision: u64,
    bytes: u64,
    collections: &Collections,
    parts: &Parts,
    index: &ItemIndex,
    load: &Load,
) -> Result<Next, LoadFault>
    requires formed { IsWellFormed load.now }
    requires past { HasPast revision bytes collections.now parts.now index.now }
    ensures { (past : List Change) → Reflects past revision bytes collections.now parts.now index.now → AnswersNext past load.now collections.now parts.now result }
{
    let admitted = admit(alloc, revision, bytes, collections, parts, index, load)?;
    let after = parts_after(
        alloc,
        revision,
        collections,
        parts,
        index,
        load,
        &admitted.come,
    )?;
    refuse_parts(after.parts.len() as u64)?;
    let collections = collections_after(alloc, collections, load)?;
    refuse_collections(collections.len() as u64)?;
    Ok(Next {
        bytes: admitted.bytes,
        collections,
        parts: after.parts,
        touched: after.touched,
        come: admitted.come,
    })
}
