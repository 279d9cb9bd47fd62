ghost use Rattle.std.specs.Prelude.{◌≤◌, ◌^◌, length, drop, IfOk, IfSome};
ghost use Rattle.sc_http.specs.Intake.{Counts, StaysOpen};
ghost use Rattle.sc_http.specs.Reading.{NextIs};

use crate::fault::HttpEnd;
use crate::find::find_head;
use crate::finish::finish;
use crate::request::Request;
use sc_outside::Source;
use std::alloc::Global;

/// The next request of the bytes that are held from a place on, and the place behind it.
#[tactic(auto, using(crate::proofs::Steps::counts_same, crate::proofs::Steps::counts_twice, crate::proofs::Steps::counts_takes, crate::proofs::Steps::counts_reads, crate::proofs::Steps::counts_kept, crate::proofs::Steps::counts_end, crate::proofs::Steps::counts_more))]
pub fn next<S: Source>(
    alloc: Global,
    held: &mut Vec<u8>,
    at: usize,
    total: &mut u64,
    source: &mut S,
) -> Result<Option<(Request, usize)>, HttpEnd>
    requires within { at ≤ length held.old.items }
    requires limit { total.old ≤ 2 ^ 40 }
    ensures next { NextIs result (drop at held.old.items) at held.new.items total.old total.new (S.left source.old) (S.left source.new) (S.ended source.new) (S.faults source.old) (S.faults source.new) }
    ensures within { IfOk result (λ found. IfSome found (λ r. r.1 ≤ length held.new.items)) }
    ensures kept { at ≤ length held.new.items }
    ensures limit { total.new ≤ 2 ^ 40 }
    ensures counted { Counts total.old total.new (S.left source.old) (S.left source.new) }
    ensures open { StaysOpen result (S.ended source.old) (S.ended source.new) }
    ensures later { S.faults source.old ≤ S.faults source.new }
{
    match find_head(alloc, held, at, total, source) {
        Ok(Some(head)) => match finish(alloc, &held[at..], head, total, source) {
            Ok((request, used)) => Ok(Some((request, at + used))),
            Err(end) => Err(end),
        },
        Ok(None) => Ok(None),
        Err(end) => Err(end),
    }
}
