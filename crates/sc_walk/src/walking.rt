ghost use Rattle.std.specs.Prelude.{◌≡◌, ◌≤◌, ◌+◌, ◌++◌, [], Some, filter, length, List, IfOk, OnOk};
ghost use Rattle.sc_item.specs.Feature.{Feature};
ghost use Rattle.sc_item.specs.Names.{AreApart};
ghost use Rattle.sc_part.specs.Version.{IsKept};
ghost use Rattle.sc_shelf.specs.Kept.{all_items};
ghost use Rattle.sc_eval.specs.Names.{AreNamesOf};
ghost use Rattle.sc_page.specs.Kept.{HasFound};
ghost use Rattle.sc_page.specs.Search.{IsPage, shared};
ghost use Rattle.sc_walk.specs.Walk.{AreCandidates, cost, is_opened, is_within};

use crate::candidate::Candidate;
use crate::front::{begins_with_time, is_done};
use crate::ids::Ids;
use crate::ordering::ordered_candidates;
use sc_expr::Select;
use sc_outside::Steps;
use sc_page::{FirstItems, Page, Query, Search};
use sc_part::PartVersion;
use sc_shelf::{KeptPart, Snapshot};
use std::alloc::{AllocError, Global};
use std::sync::ledger::Ledger;

/// The ids that a search gives, to be looked up; none where it gives none.
fn ids_of<'a>(alloc: Global, select: &'a Select) -> Result<Option<Ids<'a>>, AllocError>
    ensures { IfOk result (λ ids. AreNamesOf ids select.now.ids) }
{
    match &select.ids {
        None => Ok(None),
        Some(ids) => Ok(Some(Ids::of(alloc, ids.as_slice())?)),
    }
}

/// Takes those items of a part that have one of the ids, each found by one look-up.
fn take_named(
    alloc: Global,
    first: &mut FirstItems,
    search: &Search,
    ids: &Ids,
    version: &PartVersion,
) -> Result<(), AllocError>
    requires ids { AreNamesOf (Some ids.now) search.now.select.ids }
    requires kept { IsKept version.now }
    ensures { OnOk result ((before : List Feature) → AreApart (before ++ version.now.items) → HasFound search.now first.old before → HasFound search.now first.new (before ++ version.now.items)) }
{
    let found = ids.find_in(alloc, version)?;
    first.add_all(alloc, search, &found)?;
    first.settle(search)?;
    Ok(())
}

/// Opens a part, and takes its items. Where the search gives fewer ids than the part has items, these are looked up, and
/// the other items aren't read.
fn take_part<L: Ledger>(
    alloc: Global,
    first: &mut FirstItems,
    search: &Search,
    ids: &Option<Ids>,
    part: &KeptPart,
    steps: &mut Steps<L>,
) -> Result<(), AllocError>
    requires { AreNamesOf ids.now search.now.select.ids }
    ensures found { OnOk result ((before : List Feature) → AreApart (before ++ part.now.items) → HasFound search.now first.old before → HasFound search.now first.new (before ++ part.now.items)) }
    ensures steps { steps.new ≡ steps.old + 1 + length part.now.items }
{
    let version = part.version();
    let items = version.scan(steps);
    match ids {
        Some(ids) if ids.len() < items.len() => take_named(alloc, first, search, ids, version),
        _ => first.add_latest_first(alloc, search, items),
    }
}

/// Takes the items of candidates in the order in which they are walked, as far as items that come may still be among the
/// first. The parts that are opened are exactly those with at most as many items as the limit of all that are asked for
/// strictly before their front.
fn take_parts<L: Ledger>(
    alloc: Global,
    first: &mut FirstItems,
    search: &Search,
    ids: &Option<Ids>,
    candidates: &[Candidate],
    steps: &mut Steps<L>,
) -> Result<(), AllocError>
    requires ids { AreNamesOf ids.now search.now.select.ids }
    requires ordered { AreCandidates search.now.sort candidates.now }
    requires apart { AreApart (all_items candidates.now) }
    requires none { HasFound search.now first.now [] }
    ensures found { OnOk result (HasFound search.now first.new (all_items candidates.now)) }
    ensures steps { OnOk result (steps.new ≡ steps.old + cost (filter (is_within search.now candidates.now) candidates.now)) }
    ensures at_most { steps.new ≤ steps.old + cost (filter (is_within search.now candidates.now) candidates.now) }
{
    for candidate in candidates {
        first.settle(search)?;
        if is_done(search.sort(), first.last(), candidate.part()) {
            return Ok(());
        }
        take_part(alloc, first, search, ids, candidate.part(), steps)?;
    }
    Ok(())
}

/// Takes the items of all candidates.
fn take_all_parts<L: Ledger>(
    alloc: Global,
    first: &mut FirstItems,
    search: &Search,
    ids: &Option<Ids>,
    candidates: &[Candidate],
    steps: &mut Steps<L>,
) -> Result<(), AllocError>
    requires ids { AreNamesOf ids.now search.now.select.ids }
    requires apart { AreApart (all_items candidates.now) }
    requires none { HasFound search.now first.now [] }
    ensures found { OnOk result (HasFound search.now first.new (all_items candidates.now)) }
    ensures steps { OnOk result (steps.new ≡ steps.old + cost candidates.now) }
    ensures at_most { steps.new ≤ steps.old + cost candidates.now }
{
    for candidate in candidates {
        take_part(alloc, first, search, ids, candidate.part(), steps)?;
    }
    Ok(())
}

/// Takes the items of candidates as far as they matter. Only where the order begins with the time can a part be left out
/// by what was taken; else what waits isn't sorted in before each part.
fn take_candidates<L: Ledger>(
    alloc: Global,
    first: &mut FirstItems,
    search: &Search,
    ids: &Option<Ids>,
    candidates: &[Candidate],
    steps: &mut Steps<L>,
) -> Result<(), AllocError>
    requires ids { AreNamesOf ids.now search.now.select.ids }
    requires ordered { AreCandidates search.now.sort candidates.now }
    requires apart { AreApart (all_items candidates.now) }
    requires none { HasFound search.now first.now [] }
    ensures found { OnOk result (HasFound search.now first.new (all_items candidates.now)) }
    ensures steps { OnOk result (steps.new ≡ steps.old + cost (filter (is_within search.now candidates.now) candidates.now)) }
    ensures at_most { steps.new ≤ steps.old + cost (filter (is_within search.now candidates.now) candidates.now) }
{
    if begins_with_time(search.sort()) {
        return take_parts(alloc, first, search, ids, candidates, steps);
    }
    take_all_parts(alloc, first, search, ids, candidates, steps)
}

/// The page of a search over all items of a snapshot, and the steps that it takes, as `answer` says.
pub(crate) fn answer_search<L: Ledger>(
    alloc: Global,
    snapshot: &Snapshot,
    search: &Search,
    steps: &mut Steps<L>,
) -> Result<Page, AllocError>
    ensures page { IfOk result (λ page. IsPage search.now (all_items snapshot.now.parts) (shared page.items) page.next) }
    ensures steps { OnOk result (steps.new ≡ steps.old + cost (filter (is_opened search.now snapshot.now.parts) snapshot.now.parts)) }
    ensures at_most { steps.new ≤ steps.old + cost (filter (is_opened search.now snapshot.now.parts) snapshot.now.parts) }
{
    let candidates = ordered_candidates(alloc, search, snapshot)?;
    let ids = ids_of(alloc, search.select())?;
    let mut first = FirstItems::new(alloc, search);
    take_candidates(alloc, &mut first, search, &ids, &candidates, steps)?;
    first.into_page(alloc, search)
}

/// The page of a search over all items of a snapshot. It opens the parts that may have an item that is asked for and that
/// can't be left out by what comes strictly before them, and no other part; each counts one step, and one more for each of
/// its items. Where memory is wanting, it took at most these steps.
pub fn answer<L: Ledger>(
    alloc: Global,
    snapshot: &Snapshot,
    query: &Query,
    steps: &mut Steps<L>,
) -> Result<Page, AllocError>
    ensures page { IfOk result (λ page. IsPage query.now (all_items snapshot.now.parts) (shared page.items) page.next) }
    ensures steps { OnOk result (steps.new ≡ steps.old + cost (filter (is_opened query.now snapshot.now.parts) snapshot.now.parts)) }
    ensures at_most { steps.new ≤ steps.old + cost (filter (is_opened query.now snapshot.now.parts) snapshot.now.parts) }
{
    let search = Search::of(alloc, query)?;
    answer_search(alloc, snapshot, &search, steps)
}
