ghost use Rattle.std.specs.Prelude.{◌≡◌, ◌↔◌, IfOk, IsTrue};
ghost use Rattle.std.specs.Ordering.{int_cmp, is_gt};
ghost use Rattle.sc_part.specs.Scan.{Fits, HaveOwnIds, scan_of, scan_order, shared};

use sc_cut::{PartName, key_of};
use sc_item::Item;
use sc_time::Instant;
use std::alloc::{AllocError, Global};
use std::cmp::Ordering;
use std::sync::Arc;

/// Which of two instants is earlier.
fn compare_instants(a: Instant, b: Instant) -> Ordering
    ensures { result ≡ int_cmp a b }
{
    a.nanoseconds().cmp(&b.nanoseconds())
}

/// Which of two items is scanned first: the one that starts later, then the one of the lesser id.
fn compare_items(a: &Item, b: &Item) -> Ordering
    ensures { result ≡ scan_order a.now b.now }
{
    match compare_instants(b.start(), a.start()) {
        Ordering::Less => Ordering::Less,
        Ordering::Equal => a.id().cmp(b.id()),
        Ordering::Greater => Ordering::Greater,
    }
}

/// Whether the first item is scanned after the second.
pub(crate) fn is_after(a: &Item, b: &Item) -> bool
    ensures { result ≡ is_gt (scan_order a.now b.now) }
{
    compare_items(a, b).is_gt()
}

/// The same shared items.
fn copies(alloc: Global, items: &[Arc<Item>]) -> Result<Vec<Arc<Item>>, AllocError>
    ensures { IfOk result (λ copies. shared copies.items ≡ shared items.now) }
{
    let mut copies = Vec::with_capacity(alloc, items.len())?;
    for item in items {
        copies.push(Arc::try_clone(item)?)?;
    }
    Ok(copies)
}

/// The same shared items in the order of a scan. No two may have one id.
pub(crate) fn scan_of_items(
    alloc: Global,
    items: &[Arc<Item>],
) -> Result<Vec<Arc<Item>>, AllocError>
    requires { HaveOwnIds (shared items.now) }
    ensures { IfOk result (λ scan. shared scan.items ≡ scan_of (shared items.now)) }
{
    let mut scan = copies(alloc, items)?;
    scan.sort_by(|a, b| compare_items(a, b))?;
    Ok(scan)
}

/// Whether an item belongs to a part: it is of the name's collection, and its start has the name's key. Takes no memory.
pub fn fits(name: &PartName, item: &Item) -> bool
    ensures { IsTrue result ↔ Fits name.now item.now }
{
    item.collection() == &name.collection && key_of(name.cut, item.start()) == name.key
}
