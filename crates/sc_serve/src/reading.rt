ghost use Rattle.std.specs.Prelude.{◌≡◌, ℕ, List, Bool, true, false, Ok, None, IfOk, length, find, map};
ghost use Rattle.sc_history.specs.Content.{is_called, item_in};
ghost use Rattle.sc_catalog.specs.declared.entry.Entry.{Entry};
ghost use Rattle.sc_catalog.specs.Entries.{IsSnapshotOf};
ghost use Rattle.sc_shelf.specs.Kept.{all_items};
ghost use Rattle.sc_visit.specs.Visits.{Visitor};
ghost use Rattle.sc_document.specs.Documents.{landing, conformance, queryables, collections};
ghost use Rattle.sc_session.specs.declared.ask.Ask.TheVariants.{Look};
ghost use Rattle.sc_page.specs.Linked.{linked_page_text};
ghost use Rattle.sc_page.specs.Search.{shared};
ghost use Rattle.sc_said.specs.Said.{json, geojson};
ghost use Rattle.sc_serve.specs.Replies.{Says, SaysOf, TellsPage, OfSearch, OfSearchIn, of_collection, of_item, of_item_there, is_behind, is_load, fixed};
ghost use Rattle.sc_serve.specs.Service.{Handles, asks_of};

use crate::desk::Desk;
use sc_base::Text;
use sc_catalog::Snapshot;
use sc_document::{collections_text, conformance_text, landing_text, queryables_text};
use sc_json::write_json;
use sc_outside::Steps;
use sc_page::{Links, Page, Query, page_text};
use sc_route::Work;
use sc_said::{Said, behind, no_collection, no_item, reply_text};
use sc_walk::answer;
use std::alloc::{AllocError, Global};
use std::sync::ledger::Ledger;

/// The document that is the same for every history, if that is the work.
fn fixed_text(alloc: Global, base: &Text, work: &Work) -> Result<Option<Text>, AllocError>
    ensures { IfOk result (λ text. text ≡ fixed base.now work.now) }
{
    match work {
        Work::Landing => Ok(Some(landing_text(alloc, base)?)),
        Work::Conformance => Ok(Some(conformance_text(alloc)?)),
        Work::Queryables => Ok(Some(queryables_text(alloc)?)),
        _ => Ok(None),
    }
}

/// The landing page.
fn say_landing(alloc: Global, base: &Text) -> Result<Said, AllocError>
    ensures { IfOk result (λ said. said ≡ json (landing base.now)) }
{
    let text = landing_text(alloc, base)?;
    Ok(Said::of(200, false, text))
}

/// What the catalogue conforms to.
fn say_conformance(alloc: Global) -> Result<Said, AllocError>
    ensures { IfOk result (λ said. said ≡ json conformance) }
{
    let text = conformance_text(alloc)?;
    Ok(Said::of(200, false, text))
}

/// What can be asked of items.
fn say_queryables(alloc: Global) -> Result<Said, AllocError>
    ensures { IfOk result (λ said. said ≡ json queryables) }
{
    let text = queryables_text(alloc)?;
    Ok(Said::of(200, false, text))
}

/// What is told of the collection with the id.
fn say_collection(alloc: Global, snapshot: &Snapshot, id: &Text) -> Result<Said, AllocError>
    ensures { IfOk result (λ said. said ≡ of_collection id.now (find (is_called id.now) snapshot.now.collections)) }
{
    match snapshot.collection(id) {
        None => no_collection(alloc, id),
        Some(tree) => {
            let text = write_json(alloc, tree)?;
            Ok(Said::of(200, false, text))
        }
    }
}

/// What is told of the item with the id, if its collection is there.
fn say_item_of(
    alloc: Global,
    snapshot: &Snapshot,
    collection: &Text,
    id: &Text,
) -> Result<Said, AllocError>
    ensures { IfOk result (λ said. said ≡ of_item_there id.now (item_in (all_items snapshot.now.parts) collection.now id.now)) }
{
    match snapshot.find(collection, id) {
        None => no_item(alloc, id),
        Some(item) => {
            let doc = item.doc().try_clone(alloc)?;
            Ok(Said::of(200, true, doc))
        }
    }
}

/// What is told of the collection's item with the id.
fn say_item(
    alloc: Global,
    snapshot: &Snapshot,
    collection: &Text,
    id: &Text,
) -> Result<Said, AllocError>
    ensures { IfOk result (λ said. said ≡ of_item collection.now id.now (find (is_called collection.now) snapshot.now.collections) (item_in (all_items snapshot.now.parts) collection.now id.now)) }
{
    match snapshot.collection(collection) {
        None => no_collection(alloc, collection),
        Some(_) => say_item_of(alloc, snapshot, collection, id),
    }
}

/// What is told of all collections.
fn say_collections(alloc: Global, base: &Text, snapshot: &Snapshot) -> Result<Said, AllocError>
    ensures { IfOk result (λ said. said ≡ json (collections base.now (map (λ c. c.tree) snapshot.now.collections))) }
{
    let trees = snapshot.collections(alloc)?;
    let text = collections_text(alloc, base, trees.as_slice())?;
    Ok(Said::of(200, false, text))
}

/// What is told of a search that was answered.
fn say_page(alloc: Global, page: &Page, links: &Links) -> Result<Said, AllocError>
    ensures { IfOk result (λ said. said ≡ geojson (linked_page_text (shared page.now.items) page.now.next links.now)) }
{
    let text = page_text(alloc, page, links)?;
    Ok(Said::of(200, true, text))
}

/// What is told of a search, by all items of the snapshot.
fn say_answer<L: Ledger>(
    alloc: Global,
    snapshot: &Snapshot,
    steps: &mut Steps<L>,
    query: &Query,
    links: &Links,
) -> Result<Said, AllocError>
    ensures { IfOk result (TellsPage query.now links.now (all_items snapshot.now.parts)) }
{
    let page = answer(alloc, snapshot, query, steps)?;
    say_page(alloc, &page, links)
}

/// What is told of a search within a collection, which has to be there.
fn say_answer_in<L: Ledger>(
    alloc: Global,
    snapshot: &Snapshot,
    steps: &mut Steps<L>,
    id: &Text,
    query: &Query,
    links: &Links,
) -> Result<Said, AllocError>
    ensures { IfOk result (OfSearchIn (find (is_called id.now) snapshot.now.collections) id.now query.now links.now (all_items snapshot.now.parts)) }
{
    match snapshot.collection(id) {
        None => no_collection(alloc, id),
        Some(_) => say_answer(alloc, snapshot, steps, query, links),
    }
}

/// What is told of a search, which may be one within a collection.
fn say_search<L: Ledger>(
    alloc: Global,
    snapshot: &Snapshot,
    steps: &mut Steps<L>,
    within: &Option<Text>,
    query: &Query,
    links: &Links,
) -> Result<Said, AllocError>
    ensures { IfOk result (OfSearch within.now query.now links.now snapshot.now.collections (all_items snapshot.now.parts)) }
{
    match within {
        None => say_answer(alloc, snapshot, steps, query, links),
        Some(id) => say_answer_in(alloc, snapshot, steps, id, query, links),
    }
}

/// What is said of a work by a snapshot.
fn say<L: Ledger>(
    alloc: Global,
    base: &Text,
    snapshot: &Snapshot,
    steps: &mut Steps<L>,
    work: &Work,
) -> Result<Said, AllocError>
    requires { is_load work.now ≡ false }
    ensures { (entries : List Entry) → IsSnapshotOf entries snapshot.now → IfOk result (SaysOf base.now work.now entries false) }
{
    match work {
        Work::Landing => say_landing(alloc, base),
        Work::Conformance => say_conformance(alloc),
        Work::Queryables => say_queryables(alloc),
        Work::Collections => say_collections(alloc, base, snapshot),
        Work::Collection { id } => say_collection(alloc, snapshot, id),
        Work::Item { collection, id } => say_item(alloc, snapshot, collection, id),
        Work::Search {
            within,
            query,
            links,
        } => say_search(alloc, snapshot, steps, within, query, links),
        Work::Load(_) => unreachable!(),
    }
}

/// Whether a later revision is stated.
fn states_later(seen: Option<u64>, revision: u64) -> bool
    ensures { result ≡ is_behind seen revision }
{
    match seen {
        None => false,
        Some(stated) => revision < stated,
    }
}

/// What is said of a work by a snapshot, where a revision may be stated.
fn say_from<L: Ledger>(
    alloc: Global,
    base: &Text,
    snapshot: &Snapshot,
    steps: &mut Steps<L>,
    seen: Option<u64>,
    work: &Work,
) -> Result<Said, AllocError>
    requires { is_load work.now ≡ false }
    ensures { (entries : List Entry) → IsSnapshotOf entries snapshot.now → IfOk result (Says base.now (is_behind seen (length entries)) work.now entries false) }
{
    let revision = snapshot.revision();
    if states_later(seen, revision) {
        return behind(alloc, revision);
    }
    say(alloc, base, snapshot, steps, work)
}

/// Answers by a snapshot.
fn answer_by_snapshot<R, D: Desk<R>, L: Ledger>(
    rt: &R,
    alloc: Global,
    base: &Text,
    desk: &mut D,
    steps: &mut Steps<L>,
    seen: Option<u64>,
    work: &Work,
    close: bool,
) -> Result<Text, AllocError>
    requires read { is_load work.now ≡ false }
    requires looks { asks_of work.now seen ≡ Look }
    ensures { (begun : D) (old : Visitor Entry) → D.stands begun desk.old old → (new : Visitor Entry) × D.stands begun desk.new new ×
        Handles D.may_fail base.now close (Ok (record { seen = seen; work = work.now })) result old new }
{
    let snapshot = desk.take_snapshot(rt, alloc)?;
    let said = say_from(alloc, base, &snapshot, steps, seen, work)?;
    reply_text(alloc, said, snapshot.revision(), close)
}

/// Answers what isn't a load and states no revision: by a snapshot, where its document isn't the same for every history.
fn answer_unstated<R, D: Desk<R>, L: Ledger>(
    rt: &R,
    alloc: Global,
    base: &Text,
    desk: &mut D,
    steps: &mut Steps<L>,
    work: &Work,
    close: bool,
) -> Result<Text, AllocError>
    requires { is_load work.now ≡ false }
    ensures { (begun : D) (old : Visitor Entry) → D.stands begun desk.old old → (new : Visitor Entry) × D.stands begun desk.new new ×
        Handles D.may_fail base.now close (Ok (record { seen = None; work = work.now })) result old new }
{
    let fixed = fixed_text(alloc, base, work)?;
    match fixed {
        Some(text) => {
            let said = Said::of(200, false, text);
            reply_text(alloc, said, desk.seen(), close)
        }
        None => answer_by_snapshot(rt, alloc, base, desk, steps, None, work, close),
    }
}

/// Answers what isn't a load.
pub fn answer_read<R, D: Desk<R>, L: Ledger>(
    rt: &R,
    alloc: Global,
    base: &Text,
    desk: &mut D,
    steps: &mut Steps<L>,
    seen: Option<u64>,
    work: &Work,
    close: bool,
) -> Result<Text, AllocError>
    requires { is_load work.now ≡ false }
    ensures { (begun : D) (old : Visitor Entry) → D.stands begun desk.old old → (new : Visitor Entry) × D.stands begun desk.new new ×
        Handles D.may_fail base.now close (Ok (record { seen = seen; work = work.now })) result old new }
{
    match seen {
        None => answer_unstated(rt, alloc, base, desk, steps, work, close),
        Some(stated) => answer_by_snapshot(rt, alloc, base, desk, steps, Some(stated), work, close),
    }
}
