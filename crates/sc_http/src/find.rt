ghost use Rattle.std.specs.Prelude.{◌≡◌, ◌<◌, ◌≤◌, ◌^◌, ℕ, Bool, true, length, drop};
ghost use Rattle.sc_http.specs.Intake.{Counts, IsUnfinishedHead, Reads, StaysOpen};
ghost use Rattle.sc_http.specs.Reading.{FindsHead, IsMeasured, UnlessMemory};

use crate::fault::{HeadFault, HttpEnd};
use crate::head::{Head, Judged, judge};
use crate::lines::{Lines, NO_LINES, count_on};
use crate::look::{Looked, look, look_again, whole_head};
use crate::room::{CHUNK, room_for};
use sc_outside::Source;
use std::alloc::Global;

/// The head at a place of the held bytes, read on as far as none is held, or `None` where the input ends before it. All
/// bytes stay held. The total counts the bytes that were taken of the connection.
#[tactic(auto, using(crate::proofs::Steps::counts_same, crate::proofs::Steps::counts_twice, crate::proofs::Steps::counts_takes, crate::proofs::Steps::counts_reads, crate::proofs::Steps::counts_kept, crate::proofs::Steps::counts_end, crate::proofs::Steps::counts_more))]
pub fn find_head<S: Source>(
    alloc: Global,
    held: &mut Vec<u8>,
    at: usize,
    total: &mut u64,
    source: &mut S,
) -> Result<Option<Head>, HttpEnd>
    requires within { at ≤ length held.old.items }
    requires limit { total.old ≤ 2 ^ 40 }
    ensures reads { UnlessMemory result (Reads (drop at held.old.items) (drop at held.new.items) total.old total.new (S.left source.old) (S.left source.new)) }
    ensures found { FindsHead result (drop at held.new.items) total.new (S.ended source.new) (S.faults source.old) (S.faults source.new) }
    ensures within { at ≤ length held.new.items }
    ensures limit { total.new ≤ 2 ^ 40 }
    ensures counted { Counts total.old total.new (S.left source.old) (S.left source.new) }
    ensures open { StaysOpen result (S.ended source.old) (S.ended source.new) }
    ensures later { S.faults source.old ≤ S.faults source.new }
{
    // Requests that stand behind one another in what is held need no count.
    if let Some(head) = whole_head(alloc, &held[at..])? {
        return Ok(Some(head));
    }
    let lines = count_on(NO_LINES, &held[at..]);
    match look(alloc, &held[at..], lines)? {
        Looked::Whole(head) => Ok(Some(head)),
        Looked::Bad(fault) => Err(HttpEnd::BadHead { fault }),
        Looked::More => read_on(alloc, held, at, lines, total, source),
    }
}

/// The same where no head is held yet and the held bytes were counted.
#[tactic(auto, using(crate::proofs::Steps::counts_same, crate::proofs::Steps::counts_twice, crate::proofs::Steps::counts_takes, crate::proofs::Steps::counts_reads, crate::proofs::Steps::counts_kept, crate::proofs::Steps::counts_end, crate::proofs::Steps::counts_more))]
fn read_on<S: Source>(
    alloc: Global,
    held: &mut Vec<u8>,
    at: usize,
    counted: Lines,
    total: &mut u64,
    source: &mut S,
) -> Result<Option<Head>, HttpEnd>
    requires within { at ≤ length held.old.items }
    requires limit { total.old ≤ 2 ^ 40 }
    requires measured { IsMeasured counted (drop at held.old.items) }
    requires none { IsUnfinishedHead (drop at held.old.items) }
    ensures reads { UnlessMemory result (Reads (drop at held.old.items) (drop at held.new.items) total.old total.new (S.left source.old) (S.left source.new)) }
    ensures found { FindsHead result (drop at held.new.items) total.new (S.ended source.new) (S.faults source.old) (S.faults source.new) }
    ensures within { at ≤ length held.new.items }
    ensures limit { total.new ≤ 2 ^ 40 }
    ensures counted { Counts total.old total.new (S.left source.old) (S.left source.new) }
    ensures open { StaysOpen result (S.ended source.old) (S.ended source.new) }
    ensures later { S.faults source.old ≤ S.faults source.new }
{
    let mut chunk = [0u8; CHUNK];
    let mut lines = counted;
    'finding: loop {
        let room = room_for(CHUNK, *total);
        if room == 0 {
            return Err(HttpEnd::Spent);
        }
        match source.read(&mut chunk[..room]) {
            Ok(0) => return end_of(alloc, &held[at..]),
            Ok(count) => {
                *total += count as u64;
                held.extend_from_slice(&chunk[..count])?;
                let more = count_on(lines, &chunk[..count]);
                match look_again(alloc, &held[at..], lines.feeds, more)? {
                    Looked::Whole(head) => return Ok(Some(head)),
                    Looked::Bad(fault) => return Err(HttpEnd::BadHead { fault }),
                    Looked::More => lines = more,
                }
            }
            Err(_) => return Err(HttpEnd::ReadFault),
        }
    }
}

/// How the input ends with these bytes, which hold no head.
fn end_of(alloc: Global, held: &[u8]) -> Result<Option<Head>, HttpEnd>
    requires { IsUnfinishedHead held.now }
    ensures found { (taken before after : ℕ) → FindsHead result held.now taken true before after }
    ensures open { (before after : Bool) → StaysOpen result before after }
{
    if held.is_empty() {
        return Ok(None);
    }
    match judge(alloc, held)? {
        Judged::Found(_) => unreachable!(),
        Judged::Malformed => Err(HttpEnd::BadHead {
            fault: HeadFault::Malformed,
        }),
        Judged::Unfinished => Err(HttpEnd::Cut {
            taken: held.len() as u64,
        }),
    }
}
