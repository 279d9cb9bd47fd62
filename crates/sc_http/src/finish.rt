ghost use Rattle.std.specs.Prelude.{◌≡◌, ◌≤◌, ◌^◌, length, drop, IfOk, IfErr};
ghost use Rattle.sc_http.specs.Intake.{Counts, EndsOf, FirstOf};
ghost use Rattle.sc_http.specs.Reading.{BeginsWith, BodyStaysOpen};

use crate::body::body_of;
use crate::closing::closes;
use crate::fault::HttpEnd;
use crate::head::Head;
use crate::length::body_len;
use crate::request::Request;
use sc_base::Seq;
use sc_outside::Source;
use std::alloc::Global;

/// The request of a head that is held, and how many of the held bytes are its.
#[tactic(auto, using(crate::proofs::Steps::counts_same, crate::proofs::Steps::counts_twice, crate::proofs::Steps::counts_takes, crate::proofs::Steps::counts_reads, crate::proofs::Steps::counts_kept, crate::proofs::Steps::counts_end, crate::proofs::Steps::counts_more))]
pub fn finish<S: Source>(
    alloc: Global,
    held: &[u8],
    head: Head,
    total: &mut u64,
    source: &mut S,
) -> Result<(Request, usize), HttpEnd>
    requires head { BeginsWith held.now head }
    requires limit { total.old ≤ 2 ^ 40 }
    ensures ok { IfOk result (λ r. FirstOf r.0 held.now (drop r.1 held.now) total.old total.new (S.left source.old) (S.left source.new)) }
    ensures within { IfOk result (λ r. r.1 ≤ length held.now) }
    ensures err { IfErr result (λ e. EndsOf e held.now total.old total.new (S.left source.old) (S.left source.new) (S.ended source.new) (S.faults source.old) (S.faults source.new)) }
    ensures limit { total.new ≤ 2 ^ 40 }
    ensures counted { Counts total.old total.new (S.left source.old) (S.left source.new) }
    ensures open { BodyStaysOpen result (S.ended source.old) (S.ended source.new) }
    ensures later { S.faults source.old ≤ S.faults source.new }
{
    let len = body_len(head.headers.as_slice())? as usize;
    let close = closes(head.minor, head.headers.as_slice());
    let Head {
        method,
        target,
        headers,
        minor: _,
        len: from,
    } = head;
    let used = len.min(held.len() - from);
    let body = body_of(alloc, from, &held[from..from + used], len, total, source)?;
    let request = Request {
        method,
        target,
        headers,
        body: Seq::of(body),
        close,
    };
    Ok((request, from + used))
}
