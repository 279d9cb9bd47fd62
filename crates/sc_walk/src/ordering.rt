ghost use Rattle.std.specs.Prelude.{◌≡◌, All, IfOk, OnOk, filter, IsPermutation};
ghost use Rattle.sc_part.specs.Version.{IsKept};
ghost use Rattle.sc_item.specs.Names.{AreApart};
ghost use Rattle.sc_shelf.specs.Kept.{all_items};
ghost use Rattle.sc_shelf.specs.Ticket.{version_of};
ghost use Rattle.sc_need.specs.Need.{need_of};
ghost use Rattle.sc_need.specs.Match.{IsKeptSelect};
ghost use Rattle.sc_walk.specs.Walk.{AreCandidates, AreSorted, cost, found, is_candidate, is_opened, is_within};

use crate::candidate::Candidate;
use crate::front::{compare_fronts, may_follow};
use sc_need::{Need, may_match, need_of};
use sc_page::Search;
use sc_shelf::{KeptPart, Snapshot};
use sc_sort::SortSpec;
use std::alloc::{AllocError, Global};

/// Whether a part may have an item that is asked for.
#[tactic(auto, unfolding(crate::specs::Walk::is_candidate))]
fn is_candidate(search: &Search, need: &Need, part: &KeptPart) -> bool
    requires { need.now ≡ need_of search.now.select }
    ensures { result ≡ is_candidate search.now part.now }
{
    may_match(need, &part.bounds(), part.name()) && may_follow(search.sort(), search.after(), part)
}

/// The parts that may have an item that is asked for, in the order of names.
fn find_candidates<'a>(
    alloc: Global,
    search: &Search,
    parts: &'a [KeptPart],
) -> Result<Vec<Candidate<'a>>, AllocError>
    ensures are { IfOk result (λ candidates. candidates.items ≡ filter (is_candidate search.now) parts.now) }
    ensures kept { OnOk result (All (λ part. IsKept (version_of part)) parts.now) }
    ensures select { IsKeptSelect search.now.select }
{
    let need = need_of(alloc, search.select())?;
    let mut candidates = Vec::new(alloc);
    for part in parts {
        // The items of every part keep what items keep.
        let _version = part.version();
        if is_candidate(search, &need, part) {
            candidates.push(Candidate::of(part))?;
        }
    }
    Ok(candidates)
}

/// Sorts candidates by their fronts; those with one front stay in their order.
fn sort_candidates(sort: &SortSpec, candidates: &mut Vec<Candidate>) -> Result<(), AllocError>
    ensures { OnOk result (AreSorted sort.now candidates.old.items candidates.new.items) }
{
    candidates.sort_by(|a, b| compare_fronts(sort, a.part(), b.part()))?;
    Ok(())
}

/// The parts of a snapshot that may have an item that is asked for, in the order in which they are walked.
pub(crate) fn ordered_candidates<'a>(
    alloc: Global,
    search: &Search,
    snapshot: &'a Snapshot,
) -> Result<Vec<Candidate<'a>>, AllocError>
    ensures walked { IfOk result (λ candidates. AreCandidates search.now.sort candidates.items) }
    ensures apart { IfOk result (λ candidates. AreApart (all_items candidates.items)) }
    ensures found { IfOk result (λ candidates. IsPermutation (found search.now candidates.items) (found search.now snapshot.now.parts)) }
    ensures cost { IfOk result (λ candidates. cost (filter (is_within search.now candidates.items) candidates.items) ≡ cost (filter (is_opened search.now snapshot.now.parts) snapshot.now.parts)) }
{
    // Bounds cover, and no two items have one name, since some history had the snapshot.
    let _revision = snapshot.revision();
    let mut candidates = find_candidates(alloc, search, snapshot.parts())?;
    sort_candidates(search.sort(), &mut candidates)?;
    Ok(candidates)
}
