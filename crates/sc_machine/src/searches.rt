//! Steps that search.
ghost use Rattle.std.specs.Prelude.{List, IfOk, OnOk};
ghost use Rattle.sc_history.specs.Changes.{Change};
ghost use Rattle.sc_catalog.specs.declared.entry.Entry.{Entry};
ghost use Rattle.sc_catalog.specs.Entries.{TellsOf};
ghost use Rattle.sc_catalog.specs.Holdings.{Holdings};
ghost use Rattle.sc_machine.specs.State.{named};
ghost use Rattle.sc_machine.specs.Searches.{CountsIn, CountsSearch, SearchesIn, TakesSearch};
ghost use Rattle.sc_machine.specs.Inside.{Hulls, IsKept, IsOfHistory, state_of, taken};

use sc_base::Text;
use sc_json::Json;
use sc_outcome::{Outcome, no_such_name, refused_of};
use sc_outside::Steps;
use sc_query::of_post;
use sc_refusal::query_refusal;
use sc_shelf::Snapshot;
use sc_walk::answer;
use std::alloc::{AllocError, Global};
use std::collections::BTreeMap;
use std::sync::ledger::Ledger;

/// Answers the search of a body over a snapshot.
fn search_in<L: Ledger>(
    alloc: Global,
    snapshot: &Snapshot,
    query: &Json,
    steps: &mut Steps<L>,
) -> Result<Outcome, AllocError>
    ensures told { IfOk result (λ outcome. (entries : List Entry) (past : List Change) → TellsOf entries past → IsOfHistory entries snapshot.now → SearchesIn (taken snapshot.now) query.now entries outcome) }
    ensures counts { OnOk result ((entries : List Entry) (past : List Change) → TellsOf entries past → IsOfHistory entries snapshot.now → CountsIn (taken snapshot.now) query.now entries steps.old steps.new) }
{
    match of_post(alloc, query) {
        Ok(query) => Ok(Outcome::Found {
            revision: snapshot.revision(),
            page: answer(alloc, snapshot, &query, steps)?,
        }),
        Err(fault) => Ok(refused_of(query_refusal(alloc, fault)?)),
    }
}

/// Answers the search of a body over the snapshot with a name.
pub(crate) fn take_search<L: Ledger>(
    alloc: Global,
    snapshots: &BTreeMap<Text, Snapshot>,
    on: Text,
    query: &Json,
    steps: &mut Steps<L>,
) -> Result<Outcome, AllocError>
    ensures told { IfOk result (λ outcome. (holdings : Holdings) (hulls : Hulls) → IsKept holdings.entries snapshots.now hulls →
        TakesSearch on (named on (state_of holdings snapshots.now hulls).snapshots) query.now (state_of holdings snapshots.now hulls) (state_of holdings snapshots.now hulls) outcome) }
    ensures counts { OnOk result ((holdings : Holdings) (hulls : Hulls) → IsKept holdings.entries snapshots.now hulls →
        CountsSearch (named on (state_of holdings snapshots.now hulls).snapshots) query.now holdings.entries steps.old steps.new) }
{
    match snapshots.get(&on) {
        None => no_such_name(alloc, on),
        Some(snapshot) => search_in(alloc, snapshot, query, steps),
    }
}
