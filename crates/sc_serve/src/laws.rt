//! What every session at a desk says of searches and loads: each function has an empty body, and its clauses are the laws.
ghost use Rattle.std.specs.Prelude.{◌≡◌, ◌≤◌, ◌++◌, ◌==◌, ◌⊎◌, ℕ, List, Option, Some, Ok, length, map, filter};
ghost use Rattle.sc_http.specs.declared.request.Request.{Request};
ghost use Rattle.sc_http.specs.declared.reply.Reply.{Reply};
ghost use Rattle.sc_item.specs.Feature.{Feature};
ghost use Rattle.sc_history.specs.Changes.{Change};
ghost use Rattle.sc_history.specs.History.{replay};
ghost use Rattle.sc_catalog.specs.declared.entry.Entry.{Entry};
ghost use Rattle.sc_catalog.specs.Entries.{TellsOf, entry_of};
ghost use Rattle.sc_expr.specs.Query.{Asked};
ghost use Rattle.sc_sort.specs.Keys.{Keys};
ghost use Rattle.sc_page.specs.declared.links.Links.{Links};
ghost use Rattle.sc_page.specs.Linked.{linked_page_text};
ghost use Rattle.sc_page.specs.Search.{IsPage};
ghost use Rattle.sc_visit.specs.Visits.{Visitor, Rise};
ghost use Rattle.sc_session.specs.Handling.{Handles, AreHandled, loads_accepted};
ghost use Rattle.sc_route.specs.declared.job.Work.{Work};
ghost use Rattle.sc_route.specs.declared.job.Work.TheVariants.{Search};
ghost use Rattle.sc_said.specs.Said.{behind, reply_of};
ghost use Rattle.sc_serve.specs.Replies.{IsPageOf};
ghost use Rattle.sc_serve.specs.Service.{api_of};

use crate::desk::Desk;

/// The reply to a search that was answered, with status 200, has the text of the page which filtering all items of the
/// revision that it prints gives, ordering them and cutting them at the token.
pub fn searches_are_pages<R, D: Desk<R>>()
    ensures { (base : List ℕ) (q : Request) (reply : Reply) (old new : Visitor Entry) (handled : Handles (api_of D.may_fail base) q reply old new)
        (seen : Option ℕ) (within : Option (List ℕ)) (asked : Asked) (links : Links) → handled.job ≡ Ok (record { seen = seen; work = Search within asked links }) → reply.status ≡ 200 →
        IsPageOf asked links new.seen reply }
{}

/// No reply is older than what the request states to have seen: where that is a later revision than the reply prints, the
/// reply tells that alone.
pub fn nothing_older_than_stated<R, D: Desk<R>>()
    ensures { (base : List ℕ) (q : Request) (reply : Reply) (old new : Visitor Entry) (handled : Handles (api_of D.may_fail base) q reply old new)
        (stated : ℕ) (work : Work) → handled.job ≡ Ok (record { seen = Some stated; work = work }) →
        (stated ≤ reply.revision) ⊎ (reply ≡ reply_of (behind reply.revision) reply.revision q.close) }
{}

/// No reply is older than anything that the connection had been told: the revisions that its replies print never fall, none is
/// below the length of the history that its pass had seen at the start, and the last is that of what the pass has seen at the end.
pub fn nothing_older_than_told<R, D: Desk<R>>()
    ensures { (base : List ℕ) (qs : List Request) (rs : List Reply) (old new : Visitor Entry) → AreHandled (api_of D.may_fail base) qs rs old new →
        Rise (length old.seen) (map (λ r. r.revision) rs) (length new.seen) }
{}

/// Each load that was accepted stands in the one history whole, once, and in the order of its connection: of all entries that
/// the pass has seen, those of its number are those of before and then one for each of these loads, and no other.
pub fn loads_stand<R, D: Desk<R>>()
    ensures { (base : List ℕ) (qs : List Request) (rs : List Reply) (old new : Visitor Entry) (handled : AreHandled (api_of D.may_fail base) qs rs old new) →
        filter (λ e. e.by == old.number) new.seen ≡
        filter (λ e. e.by == old.number) old.seen ++ map (entry_of old.number) (loads_accepted (api_of D.may_fail base) qs rs old new handled) }
{}
