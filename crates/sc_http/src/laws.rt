//! Laws of requests, for those who follow a connection: each is the contract of a function that does nothing.

ghost use Rattle.std.specs.Prelude.{◌≡◌, ◌≢◌, ◌<◌, ◌++◌, ◌∷◌, [], ℕ, List, Bool, Err, length};
ghost use Rattle.httparse.specs.Grammar.{RequestHead, NeverHasRequest};
ghost use Rattle.sc_http.specs.Requests.{HasHead, HasNoHead, HasNoWhole, BeginsWithRequest, AreRequests, Requests, length_in};
ghost use Rattle.sc_http.specs.Intake.{IsBadHead, IsEnd, IsUnfinished};
ghost use Rattle.sc_http.specs.declared.request.Request.{Request};
ghost use Rattle.sc_http.specs.declared.fault.HttpEnd.{HttpEnd};
ghost use Rattle.sc_http.specs.declared.fault.HttpEnd.TheVariants as End;
ghost use Rattle.sc_http.specs.declared.fault.HeadFault.{HeadFault};
ghost use Rattle.sc_http.specs.declared.fault.HeadFault.TheVariants as Fault;
ghost use Rattle.sc_http.specs.declared.fault.LengthFault.{LengthFault};

/// Bytes begin with at most one whole request, and it has one rest.
pub fn one_first_request()
    ensures { (bytes r s : List ℕ) (q p : Request) → BeginsWithRequest bytes q r → BeginsWithRequest bytes p s → (q ≡ p) × (r ≡ s) }
{}

/// Bytes have one list of whole requests at their front, and one rest behind it.
pub fn one_list_of_requests()
    ensures { (bytes r s : List ℕ) (qs ps : List Request) → Requests bytes qs r → Requests bytes ps s → (qs ≡ ps) × (r ≡ s) }
{}

/// The first request of a rest and of further bytes is the next one of all bytes. So the requests that an intake gives
/// one after the other are those of all bytes that it took.
pub fn requests_go_on()
    ensures { (bytes rest taken next : List ℕ) (qs : List Request) (q : Request) → AreRequests bytes qs rest → BeginsWithRequest (rest ++ taken) q next → AreRequests (bytes ++ taken) (qs ++ q ∷ []) next }
{}

/// The requests at the front of bytes stay so with further bytes behind them.
pub fn requests_stay()
    ensures { (bytes rest more : List ℕ) (qs : List Request) → AreRequests bytes qs rest → AreRequests (bytes ++ more) qs (rest ++ more) }
{}

/// A request has bytes: behind it there are fewer than before it.
pub fn request_has_bytes()
    ensures { (bytes rest : List ℕ) (q : Request) → BeginsWithRequest bytes q rest → length rest < length bytes }
{}

/// Where requests end, but for want of memory, there is no whole request.
pub fn no_request_at_an_end()
    ensures { (end : HttpEnd) (bytes : List ℕ) (taken : ℕ) (ended : Bool) (before after : ℕ) → end ≢ End.OutOfMemory → IsEnd end bytes taken ended before after → HasNoWhole bytes }
{}

/// Where the request isn't whole and there is room for it, there is no whole request.
pub fn unfinished_is_no_request()
    ensures { (bytes : List ℕ) → IsUnfinished bytes → HasNoWhole bytes }
{}

/// Where a head is there whose lines state no length that is taken, that is told, but for want of memory.
pub fn bad_length_is_told()
    ensures { (end : HttpEnd) (bytes : List ℕ) (taken : ℕ) (ended : Bool) (before after : ℕ) (h : RequestHead) (rest : List ℕ) (fault : LengthFault) → HasHead bytes h rest → length_in h ≡ Err fault
        → end ≢ End.OutOfMemory → IsEnd end bytes taken ended before after → end ≡ End.BadLength fault }
{}

/// No head comes of bytes that are told as malformed, whatever follows them.
pub fn malformed_stays()
    ensures { (bytes : List ℕ) → IsBadHead Fault.Malformed bytes → NeverHasRequest bytes }
{}

/// No head within the limits comes of bytes that are told as a bad head, whatever follows them.
pub fn bad_head_stays()
    ensures { (fault : HeadFault) (bytes more : List ℕ) → IsBadHead fault bytes → HasNoHead (bytes ++ more) }
{}

/// No whole request comes of bytes whose head states no length that is taken, whatever follows them.
pub fn bad_length_stays()
    ensures { (bytes more : List ℕ) (h : RequestHead) (rest : List ℕ) (fault : LengthFault) → HasHead bytes h rest → length_in h ≡ Err fault → HasNoWhole (bytes ++ more) }
{}
