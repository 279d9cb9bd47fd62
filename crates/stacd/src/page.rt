ghost use Rattle.std.specs.Prelude.{◌≡◌, ◌≢◌, ◌≤◌, true, MatchResult};
ghost use Rattle.std.specs.Io.KnownBytes.{Keeps};
ghost use Rattle.sc_outside.specs.Causes.{Rose};
ghost use Rattle.sc_outside.specs.Lines.{lines_to_read};
ghost use Rattle.stacd.specs.Lines.{IsFault};
ghost use Rattle.stacd.specs.Page.{IsAnswer, EndsOn, PageRan, end_of_fault};

use crate::fault::LineFault;
use crate::lines::{MOST_BYTES, judge};
use sc_outside::{ReadEnd, Seq, Sink, Source, Taken, read_all, write_all};
use sc_page::{Text, bare_page_text};
use std::alloc::Global;

/// How a call of `page` ends.
#[derive(Clone, Copy, Debug, PartialEq, Eq)]
pub enum PageEnd {
    /// The input was read to its end, and its page was written.
    Done,
    /// The line of this number, from 1, is the first bad one.
    BadLine { line: u64 },
    /// The input failed, and no whole line before that is bad.
    ReadFault,
    /// The output failed, and has a front of the page.
    WriteFault,
    OutOfMemory,
}

/// The page of the lines and a line feed, or the first bad line.
fn answer(alloc: Global, limit: u32, bytes: Seq<u8>) -> Result<Text, LineFault>
    ensures { MatchResult result (IsAnswer (lines_to_read true bytes) limit) (IsFault (lines_to_read true bytes)) }
{
    let page = judge(alloc, bytes, true, limit)?;
    let mut text = bare_page_text(alloc, page.as_slice())?;
    text.push_str("\n")?;
    Ok(text)
}

/// What a fault of the lines ends a call with.
fn end_of(fault: LineFault) -> PageEnd
    ensures { result ≡ end_of_fault fault }
{
    match fault {
        LineFault::BadLine(line) => PageEnd::BadLine { line },
        LineFault::OutOfMemory => PageEnd::OutOfMemory,
    }
}

/// Writes the page of all the lines, or finds the first bad line.
fn finish<K: Sink>(alloc: Global, limit: u32, bytes: Seq<u8>, sink: &mut K) -> PageEnd
    ensures ends { EndsOn result limit (lines_to_read true bytes) true (K.written sink.old) (K.written sink.new) }
    ensures read { result ≢ PageEnd.ReadFault }
    ensures write { result ≡ PageEnd.WriteFault → Rose (K.faults sink.old) (K.faults sink.new) }
    ensures later { K.faults sink.old ≤ K.faults sink.new }
{
    let text = match answer(alloc, limit, bytes) {
        Ok(text) => text,
        Err(fault) => return end_of(fault),
    };
    match write_all(sink, text.bytes()) {
        Ok(()) => PageEnd::Done,
        Err(_) => PageEnd::WriteFault,
    }
}

#[tactic(auto, using(crate::proofs::Ends::ends_at_end, crate::proofs::Ends::ends_past_limit))]
/// Reads one item a line, and writes the page of the first `limit` of them, the latest first, and a line feed.
/// Nothing is written before the input's end, and nothing where a line is bad.
/// A line is bad that spells no item, that repeats a collection and id, that is past 1,000,000 lines, or that holds a
/// byte past the first 2^28. Whole lines are judged before a fault of the input is told.
pub fn page<S: Source, K: Sink>(alloc: Global, limit: u32, source: &mut S, sink: &mut K) -> PageEnd
    requires low { 1 ≤ limit }
    requires high { limit ≤ 10000 }

    // On the bytes that it took, it ended as it should.
    ensures ran { (result ≢ PageEnd.OutOfMemory) → PageRan result limit (S.left source.old) (S.left source.new) (S.ended source.new) (K.written sink.old) (K.written sink.new) }
    ensures memory { result ≡ PageEnd.OutOfMemory → Keeps (K.written sink.old) (K.written sink.new) }

    // A fault is answered only where the source or the sink had one in this call.
    ensures read { result ≡ PageEnd.ReadFault → Rose (S.faults source.old) (S.faults source.new) }
    ensures write { result ≡ PageEnd.WriteFault → Rose (K.faults sink.old) (K.faults sink.new) }
    ensures source_faults { S.faults source.old ≤ S.faults source.new }
    ensures sink_faults { K.faults sink.old ≤ K.faults sink.new }
{
    let Taken { bytes, end } = match read_all(alloc, source, MOST_BYTES) {
        Ok(taken) => taken,
        Err(_) => return PageEnd::OutOfMemory,
    };
    match end {
        ReadEnd::Failed => match judge(alloc, bytes, false, 0) {
            Ok(_) => PageEnd::ReadFault,
            Err(fault) => end_of(fault),
        },
        ReadEnd::Ended => finish(alloc, limit, bytes, sink),
        ReadEnd::Full => finish(alloc, limit, bytes, sink),
    }
}
