ghost use Rattle.std.specs.Prelude.{◌≡◌, ◌≢◌, ◌++◌, ◌∷◌, IfOk, OnOk, IsTrue, decimal};
ghost use Rattle.sc_http.specs.Reply.{is_status};
ghost use Rattle.sc_load.specs.declared.fault.LoadFault.TheVariants as load;
ghost use Rattle.sc_load.specs.declared.fault.PrepareFault.TheVariants as prepare;
ghost use Rattle.sc_refusal.specs.Refusals as spec;

use crate::inner::{counted, item_told, number_text};
use crate::refusal::{Refusal, plain, telling};
use sc_base::Text;
use sc_item::ItemFault;
use sc_load::{LoadFault, PrepareFault};
use std::alloc::{AllocError, Global};

/// The place of an item, and what is told of its fault behind a blank.
fn placed(alloc: Global, n: u64, fault: ItemFault) -> Result<Text, AllocError>
    ensures { IfOk result (λ about. about ≡ decimal n ++ 32 ∷ spec.item_told fault) }
{
    let told = item_told(alloc, fault)?;
    let mut about = number_text(alloc, n)?;
    push(&mut about, told.as_str())?;
    Ok(about)
}

/// Adds a blank and a text.
fn push(about: &mut Text, more: &str) -> Result<(), AllocError>
    ensures { OnOk result (about.new ≡ about.old ++ 32 ∷ more.now) }
{
    about.push_str(" ")?;
    about.push_str(more)
}

/// Two numbers with a blank between them.
fn both(alloc: Global, first: u64, second: u64) -> Result<Text, AllocError>
    ensures { IfOk result (λ about. about ≡ spec.counted (decimal first) second) }
{
    let first = number_text(alloc, first)?;
    counted(alloc, first.as_str(), second)
}

/// What is told of a tree of which no load is read. Of want of memory nothing is told.
pub fn prepare_refusal(alloc: Global, fault: PrepareFault) -> Result<Refusal, AllocError>
    ensures told { IfOk result (λ refusal. refusal ≡ spec.prepare_refused fault) }
    ensures known { IfOk result (λ _. fault ≢ prepare.OutOfMemory) }
    ensures served { IfOk result (λ refusal. IsTrue (is_status refusal.status)) }
{
    match fault {
        PrepareFault::BadItem { n, fault } => {
            telling(alloc, 400, "BadItem", placed(alloc, n, fault)?)
        }
        PrepareFault::TooManyItems { count } => {
            telling(alloc, 400, "TooManyItems", number_text(alloc, count)?)
        }
        PrepareFault::BadCollection => plain(alloc, 400, "BadCollection"),
        PrepareFault::OutOfMemory => Err(AllocError),
    }
}

/// What is told of a load that a catalogue doesn't take. Of want of memory nothing is told.
pub fn load_refusal(alloc: Global, fault: LoadFault) -> Result<Refusal, AllocError>
    ensures told { IfOk result (λ refusal. refusal ≡ spec.load_refused fault) }
    ensures known { IfOk result (λ _. fault ≢ load.OutOfMemory) }
    ensures served { IfOk result (λ refusal. IsTrue (is_status refusal.status)) }
{
    match fault {
        LoadFault::NoCollection => plain(alloc, 404, "NoCollection"),
        LoadFault::CollectionExists => plain(alloc, 409, "CollectionExists"),
        LoadFault::ItemExists { id } => telling(alloc, 409, "ItemExists", id),
        LoadFault::NoItem { id } => telling(alloc, 404, "NoItem", id),
        LoadFault::DuplicateInLoad { id } => telling(alloc, 400, "DuplicateInLoad", id),
        LoadFault::BadPatch { fault } => telling(alloc, 400, "BadPatch", item_told(alloc, fault)?),
        LoadFault::HistoryFull { entries, bytes } => {
            telling(alloc, 507, "HistoryFull", both(alloc, entries, bytes)?)
        }
        LoadFault::PartitionsFull { count } => {
            telling(alloc, 507, "PartitionsFull", number_text(alloc, count)?)
        }
        LoadFault::CollectionsFull { count } => {
            telling(alloc, 507, "CollectionsFull", number_text(alloc, count)?)
        }
        LoadFault::OutOfMemory => Err(AllocError),
    }
}
