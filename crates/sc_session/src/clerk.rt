ghost use Rattle.std.specs.Prelude.{◌≡◌, ℕ, length, option_map, IfOk};
ghost use Rattle.sc_http.specs.declared.request.Request.{Request};
ghost use Rattle.sc_http.specs.Reply.{reply_bytes};
ghost use Rattle.sc_visit.specs.Visits.{Visitor};
ghost use Rattle.sc_session.specs.Service.{Service};
ghost use Rattle.sc_session.specs.Handling.{Answers};

use sc_base::Text;
use sc_http::{HttpEnd, Request};
use std::alloc::{AllocError, Global};

/// Who answers requests, by turns that a pass `P` takes at a history. `R` is what the turns wait by, if they wait at all, and `T`
/// what else is lent to it, of which contracts say nothing here.
pub trait Clerk<R, P, T> {
    /// What a history is a list of.
    type Entry;
    /// What is published.
    type Load;
    /// What requests are read as.
    type Job;

    /// The service that it does.
    ghost service: { Self → Service Self.Entry Self.Load Self.Job };

    /// This is seen of the pass, which was as the first of the two when the connection began.
    ghost stands: { P → P → Visitor Self.Entry → Type 0 };

    /// Answers a request with the whole text of its reply. Where memory is wanting the history has no entry more.
    fn answer(
        &self,
        rt: &R,
        alloc: Global,
        pass: &mut P,
        tools: &mut T,
        request: &Request,
    ) -> Result<Text, AllocError>
        ensures { (begun : P) (old : Visitor Self.Entry) → stands begun pass.old old → (new : Visitor Self.Entry) × stands begun pass.new new × Answers (service self.now) result request.now old new };

    /// The text of the reply to an end of the requests, where there is one.
    fn refuse(&self, alloc: Global, pass: &P, end: &HttpEnd) -> Result<Option<Text>, AllocError>
        ensures { (begun : P) (now : Visitor Self.Entry) → stands begun pass.now now → IfOk result (λ text. text ≡ option_map reply_bytes ((service self.now).refusal end.now (length now.seen))) };

    /// An entry has its number.
    ghost numbered: { (clerk : Self) (number : ℕ) (load : Self.Load) → (service clerk).by ((service clerk).entry number load) ≡ number };
}
