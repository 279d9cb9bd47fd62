ghost use Rattle.std.specs.Prelude.{◌≡◌, ◌+◌, ◌<◌, ◌≤◌, ◌^◌, length, IfOk, IfErr, OnOk};
ghost use Rattle.sc_http.specs.Intake.{Counts, Takes};
ghost use Rattle.sc_http.specs.Reading.{BodyEnds, BodyStaysOpen};

use crate::fault::HttpEnd;
use crate::room::{CHUNK, room_for};
use sc_outside::Source;
use std::alloc::Global;

/// A body of that length behind a head of so many bytes: what of it is held, and the rest as it comes. Nothing behind it
/// is read. The total counts the bytes that were taken of the connection.
#[tactic(auto, using(crate::proofs::Steps::counts_same, crate::proofs::Steps::counts_twice, crate::proofs::Steps::counts_takes, crate::proofs::Steps::counts_reads, crate::proofs::Steps::counts_kept, crate::proofs::Steps::counts_end, crate::proofs::Steps::counts_more))]
pub fn body_of<S: Source>(
    alloc: Global,
    head: usize,
    held: &[u8],
    len: usize,
    total: &mut u64,
    source: &mut S,
) -> Result<Vec<u8>, HttpEnd>
    requires within { length held.now ≤ len }
    requires fits { head + len < 2 ^ 64 }
    requires limit { total.old ≤ 2 ^ 40 }
    ensures took { IfOk result (λ body. Takes held.now body.items total.old total.new (S.left source.old) (S.left source.new)) }
    ensures len { IfOk result (λ body. length body.items ≡ len) }
    ensures end { IfErr result (λ e. BodyEnds e head held.now len total.old total.new (S.left source.old) (S.left source.new) (S.ended source.new) (S.faults source.old) (S.faults source.new)) }
    ensures limit { total.new ≤ 2 ^ 40 }
    ensures counted { Counts total.old total.new (S.left source.old) (S.left source.new) }
    ensures open { BodyStaysOpen result (S.ended source.old) (S.ended source.new) }
    ensures later { S.faults source.old ≤ S.faults source.new }
{
    let mut body = Vec::with_capacity(alloc, len)?;
    body.extend_from_slice(held)?;
    if body.len() == len {
        return Ok(body);
    }
    fill(head, &mut body, len, total, source)?;
    Ok(body)
}

/// Reads on until a body has its length.
#[tactic(auto, using(crate::proofs::Steps::counts_same, crate::proofs::Steps::counts_twice, crate::proofs::Steps::counts_takes, crate::proofs::Steps::counts_reads, crate::proofs::Steps::counts_kept, crate::proofs::Steps::counts_end, crate::proofs::Steps::counts_more))]
fn fill<S: Source>(
    head: usize,
    body: &mut Vec<u8>,
    len: usize,
    total: &mut u64,
    source: &mut S,
) -> Result<(), HttpEnd>
    requires within { length body.old.items ≤ len }
    requires fits { head + len < 2 ^ 64 }
    requires limit { total.old ≤ 2 ^ 40 }
    ensures took { OnOk result (Takes body.old.items body.new.items total.old total.new (S.left source.old) (S.left source.new)) }
    ensures len { OnOk result (length body.new.items ≡ len) }
    ensures end { IfErr result (λ e. BodyEnds e head body.old.items len total.old total.new (S.left source.old) (S.left source.new) (S.ended source.new) (S.faults source.old) (S.faults source.new)) }
    ensures limit { total.new ≤ 2 ^ 40 }
    ensures counted { Counts total.old total.new (S.left source.old) (S.left source.new) }
    ensures open { BodyStaysOpen result (S.ended source.old) (S.ended source.new) }
    ensures later { S.faults source.old ≤ S.faults source.new }
{
    let mut chunk = [0u8; CHUNK];
    'filling: while body.len() < len {
        let room = room_for(len - body.len(), *total);
        if room == 0 {
            return Err(HttpEnd::Spent);
        }
        match source.read(&mut chunk[..room]) {
            Ok(0) => {
                return Err(HttpEnd::Cut {
                    taken: (head + body.len()) as u64,
                });
            }
            Ok(count) => {
                *total += count as u64;
                body.extend_from_slice(&chunk[..count])?;
            }
            Err(_) => return Err(HttpEnd::ReadFault),
        }
    }
    Ok(())
}
