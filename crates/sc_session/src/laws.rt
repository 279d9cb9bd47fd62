//! Laws of sessions: each is the contract of a function that does nothing.
ghost use Rattle.std.specs.Prelude.{◌≡◌, ◌++◌, ◌==◌, ℕ, List, length, map, filter};
ghost use Rattle.sc_http.specs.declared.request.Request.{Request};
ghost use Rattle.sc_http.specs.declared.reply.Reply.{Reply};
ghost use Rattle.sc_visit.specs.Visits.{Visitor, Rise};
ghost use Rattle.sc_http.specs.Requests.{Requests};
ghost use Rattle.sc_session.specs.declared.ending.ConnEnd.{ConnEnd};
ghost use Rattle.sc_session.specs.Session.{Place, Session, IsOfRequests};
ghost use Rattle.sc_session.specs.Handling.{AreHandled, loads_accepted};

use crate::clerk::Clerk;

/// No reply is older than anything that the connection had been told: the revisions of its replies never fall, none is below
/// the length of the history that its pass had seen at the start, and the last is that of the history seen at the end. So do
/// the visits of its pass. What the pass had seen at the start is a beginning of what it has seen at the end.
pub fn nothing_older<R, P, T, C: Clerk<R, P, T>>()
    ensures told { (clerk : C) (qs : List Request) (rs : List Reply) (old new : Visitor C.Entry) → AreHandled (C.service clerk) qs rs old new →
        Rise (length old.seen) (map (λ r. r.revision) rs) (length new.seen) }
    ensures visits { (clerk : C) (qs : List Request) (rs : List Reply) (old new : Visitor C.Entry) → AreHandled (C.service clerk) qs rs old new →
        (more : List ℕ) × (new.visits ≡ old.visits ++ more) × Rise (length old.seen) more (length new.seen) }
    ensures seen { (clerk : C) (qs : List Request) (rs : List Reply) (old new : Visitor C.Entry) → AreHandled (C.service clerk) qs rs old new →
        (rest : List C.Entry) × (new.seen ≡ old.seen ++ rest) }
{}

/// Each load that was accepted stands in the history, whole, once, and in the order of its connection: of all entries that
/// the pass has seen, those of its number are those of before and then these, and no other.
pub fn loads_stand<R, P, T, C: Clerk<R, P, T>>()
    ensures { (clerk : C) (qs : List Request) (rs : List Reply) (old new : Visitor C.Entry) (handled : AreHandled (C.service clerk) qs rs old new) →
        filter (λ e. (C.service clerk).by e == old.number) new.seen ≡
        filter (λ e. (C.service clerk).by e == old.number) old.seen ++ map ((C.service clerk).entry old.number) (loads_accepted (C.service clerk) qs rs old new handled) }
{}

/// Where a connection ends by its requests, without being asked to, all whole requests at the front of the bytes that were taken
/// were handled, and what is behind them begins with none.
pub fn all_requests_are_handled<R, P, T, C: Clerk<R, P, T>>()
    ensures { (clerk : C) (old new : Place C.Entry) (end : ConnEnd) (session : Session (C.service clerk) old new end) → IsOfRequests end session.closed →
        Requests session.front session.requests session.rest }
{}
