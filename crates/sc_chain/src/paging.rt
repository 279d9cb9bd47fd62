ghost use Rattle.std.specs.Prelude.{◌≡◌, length, option_map, IfOk};
ghost use Rattle.std.specs.Option.{ForSome};
ghost use Rattle.sc_item.specs.Names.{AreApart};
ghost use Rattle.sc_page.specs.Search.{shared};
ghost use Rattle.sc_shelf.specs.Kept.{all_items};
ghost use Rattle.sc_chain.specs.Chain.{behind, IsAll};
ghost use Rattle.sc_chain.specs.Joining.{GoesOn, IsJoined};

use sc_base::Seq;
use sc_item::Item;
use sc_outside::Steps;
use sc_page::KeyList;
use sc_walk::{Page, Query, Snapshot, answer};
use std::alloc::{AllocError, Global};
use std::sync::Arc;
use std::sync::ledger::Ledger;

/// The same query behind another place, which has a value for each key of its sort.
fn behind(query: Query, place: KeyList) -> Query
    requires { length place.values ≡ length query.sort }
    ensures { result ≡ behind query place }
{
    let (select, sort, limit, _) = query.into_parts();
    Query::new(select, sort, limit, Some(place))
}

/// The same behind a place, where there is one.
fn next_of(query: Query, place: Option<KeyList>) -> Option<Query>
    requires { ForSome place (λ place. length place.values ≡ length query.sort) }
    ensures { result ≡ option_map (behind query) place }
{
    match place {
        None => None,
        Some(place) => Some(behind(query, place)),
    }
}

/// Puts the items of a query's page at the end, and gives the place behind which the next page begins.
fn join_items<L: Ledger>(
    alloc: Global,
    snapshot: &Snapshot,
    query: &Query,
    all: &mut Vec<Arc<Item>>,
    steps: &mut Steps<L>,
) -> Result<Option<KeyList>, AllocError>
    ensures { IfOk result (λ next. IsJoined query.now (all_items snapshot.now.parts) (shared all.old.items) (shared all.new.items) next) }
{
    let Page { items, next } = answer(alloc, snapshot, query, steps)?;
    let mut items = items.into_vec();
    all.append(&mut items)?;
    Ok(next)
}

/// Puts the items of a query's page at the end, and gives the query of the next page, where there is one.
fn join_page<L: Ledger>(
    alloc: Global,
    snapshot: &Snapshot,
    query: Query,
    all: &mut Vec<Arc<Item>>,
    steps: &mut Steps<L>,
) -> Result<Option<Query>, AllocError>
    ensures { IfOk result (λ next. GoesOn query (all_items snapshot.now.parts) (shared all.old.items) (shared all.new.items) next) }
{
    // A page has one item at least.
    let _limit = query.limit();
    let next = join_items(alloc, snapshot, &query, all, steps)?;
    Ok(next_of(query, next))
}

/// All items of a snapshot that a query asks for, each once and in the query's order: its pages, each behind the place that
/// the page before it gave as the next, joined. Whatever the query's limit, the pages end.
pub fn chain_pages<L: Ledger>(
    alloc: Global,
    snapshot: &Snapshot,
    query: Query,
    steps: &mut Steps<L>,
) -> Result<Seq<Arc<Item>>, AllocError>
    ensures all { IfOk result (λ all. IsAll query (all_items snapshot.now.parts) (shared all)) }
    ensures apart { IfOk result (λ all. AreApart (shared all)) }
{
    // No two items of a snapshot have one name.
    let _revision = snapshot.revision();
    let mut all = Vec::new(alloc);
    let mut rest = query;
    'paging: loop {
        let Some(next) = join_page(alloc, snapshot, rest, &mut all, steps)? else {
            return Ok(Seq::of(all));
        };
        rest = next;
    }
}
