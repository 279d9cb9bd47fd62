//! One pass over two lists in the order of a scan.
ghost use Rattle.std.specs.Prelude.{◌≡◌, ◌≤◌, ◌++◌, [], ◌∷◌, List, length, take, drop, IfOk, OnOk, if◌then◌else◌};
ghost use Rattle.std.specs.Arc.{arc_value};
ghost use Rattle.sqlite_keyed.specs.Lists.{sort_by};
ghost use Rattle.sc_item.specs.Feature.{Feature};
ghost use Rattle.sc_part.specs.Entry.{digest, ids_of};
ghost use Rattle.sc_part.specs.Index.{AreFor, Extends};
ghost use Rattle.sc_part.specs.Merged.{AreAbove, AreFrom, AreMoved, IsUp, staying};
ghost use Rattle.sc_part.specs.Scan.{scan_order, shared};

use crate::entry::{Entry, digest_of};
use crate::order::is_after;
use sc_item::Item;
use std::alloc::{AllocError, Global};
use std::sync::Arc;

/// The items of a merge.
#[derive(Drop)]
pub(crate) struct Merged {
    /// The items in the order of a scan.
    pub items: Vec<Arc<Item>>,
    /// For each place in the list that was merged with others, the place of the item that stood there, where it stays.
    pub moved: Vec<usize>,
    /// Entries for the items that came.
    pub fresh: Vec<Entry>,
}

/// Puts an item that comes at the end, and tells where.
fn put_arrival(
    out: &mut Vec<Arc<Item>>,
    fresh: &mut Vec<Entry>,
    arrival: &Arc<Item>,
) -> Result<(), AllocError>
    ensures items { OnOk result (shared out.new.items ≡ shared out.old.items ++ arc_value arrival.now ∷ []) }
    ensures ids { OnOk result (ids_of out.new.items ≡ ids_of out.old.items ++ (arc_value arrival.now).id ∷ []) }
    ensures fresh { OnOk result (fresh.new.items ≡ fresh.old.items ++ record { digest = digest (arc_value arrival.now).id; place = length (ids_of out.old.items) } ∷ []) }
{
    fresh.push(Entry {
        digest: digest_of(arrival.id().as_str()),
        place: out.len(),
    })?;
    out.push(Arc::try_clone(arrival)?)?;
    Ok(())
}

/// Puts those that come and aren't after the item; answers where the others begin.
fn put_before(
    out: &mut Vec<Arc<Item>>,
    fresh: &mut Vec<Entry>,
    come: &[Arc<Item>],
    from: usize,
    item: &Item,
) -> Result<usize, AllocError>
    requires within { from ≤ length come.now }
    requires up { IsUp (shared come.now) }
    requires fresh { AreFor (ids_of out.old.items) fresh.old.items (take from (ids_of come.now)) }
    ensures within { IfOk result (λ at. at ≤ length come.now) }
    ensures above { IfOk result (λ at. AreAbove item.now (drop at (shared come.now))) }
    ensures merges { IfOk result (λ at. (rest : List Feature) → AreFrom item.now rest → shared out.new.items ++ sort_by scan_order (drop at (shared come.now) ++ rest) ≡ shared out.old.items ++ sort_by scan_order (drop from (shared come.now) ++ rest)) }
    ensures fresh { IfOk result (λ at. AreFor (ids_of out.new.items) fresh.new.items (take at (ids_of come.now))) }
    ensures grown { IfOk result (λ at. Extends (ids_of out.old.items) (ids_of out.new.items)) }
{
    for at in from..come.len() {
        let arrival = &come[at];
        if is_after(arrival, item) {
            return Ok(at);
        }
        put_arrival(out, fresh, arrival)?;
    }
    Ok(come.len())
}

/// Puts all that are left of those that come.
fn put_rest(
    out: &mut Vec<Arc<Item>>,
    fresh: &mut Vec<Entry>,
    come: &[Arc<Item>],
    from: usize,
) -> Result<(), AllocError>
    requires within { from ≤ length come.now }
    requires fresh { AreFor (ids_of out.old.items) fresh.old.items (take from (ids_of come.now)) }
    ensures items { OnOk result (shared out.new.items ≡ shared out.old.items ++ drop from (shared come.now)) }
    ensures fresh { OnOk result (AreFor (ids_of out.new.items) fresh.new.items (ids_of come.now)) }
    ensures grown { OnOk result (Extends (ids_of out.old.items) (ids_of out.new.items)) }
{
    for at in from..come.len() {
        let arrival = &come[at];
        put_arrival(out, fresh, arrival)?;
    }
    Ok(())
}

/// Puts an item that was there, unless it goes, and tells the place that it has or would have.
fn put_next(
    out: &mut Vec<Arc<Item>>,
    moved: &mut Vec<usize>,
    item: &Arc<Item>,
    goes: bool,
) -> Result<(), AllocError>
    ensures items { OnOk result (shared out.new.items ≡ shared out.old.items ++ (if goes then [] else arc_value item.now ∷ [])) }
    ensures ids { OnOk result (ids_of out.new.items ≡ ids_of out.old.items ++ (if goes then [] else (arc_value item.now).id ∷ [])) }
    ensures moved { OnOk result (moved.new.items ≡ moved.old.items ++ length (ids_of out.old.items) ∷ []) }
{
    moved.push(out.len())?;
    if !goes {
        out.push(Arc::try_clone(item)?)?;
    }
    Ok(())
}

/// The items whose mark isn't set and those that come, in one pass over both.
pub(crate) fn merge(
    alloc: Global,
    items: &[Arc<Item>],
    marks: &[bool],
    come: &[Arc<Item>],
) -> Result<Merged, AllocError>
    requires items { IsUp (shared items.now) }
    requires come { IsUp (shared come.now) }
    requires marks { length marks.now ≡ length items.now }
    ensures items { IfOk result (λ m. shared m.items.items ≡ sort_by scan_order (shared come.now ++ staying marks.now (shared items.now))) }
    ensures moved { IfOk result (λ m. AreMoved (ids_of items.now) (ids_of m.items.items) marks.now m.moved.items (length items.now)) }
    ensures fresh { IfOk result (λ m. AreFor (ids_of m.items.items) m.fresh.items (ids_of come.now)) }
{
    let mut out = Vec::with_capacity(alloc, come.len() + items.len())?;
    let mut moved = Vec::with_capacity(alloc, items.len())?;
    let mut fresh = Vec::with_capacity(alloc, come.len())?;
    let mut at = 0;
    for place in 0..items.len() {
        let item = &items[place];
        at = put_before(&mut out, &mut fresh, come, at, item)?;
        put_next(&mut out, &mut moved, item, marks[place])?;
    }
    put_rest(&mut out, &mut fresh, come, at)?;
    Ok(Merged {
        items: out,
        moved,
        fresh,
    })
}
