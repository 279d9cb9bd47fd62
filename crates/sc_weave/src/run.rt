ghost use Rattle.std.specs.Prelude.{◌≡◌, ◌≢◌, ◌≤◌, List, ℕ, true};
ghost use Rattle.std.specs.declared.option.Option.{Option};
ghost use Rattle.sc_outside.specs.Causes.{Rose};
ghost use Rattle.sc_outside.specs.Lines.{lines_to_read};
ghost use Rattle.sc_weave.specs.declared.ending.WeaveEnd.TheVariants.{ReadFault, WriteFault};
ghost use Rattle.sc_weave.specs.Weaving.{EndsOn, WeaveRan};
ghost use Rattle.sc_weave.specs.Inside.{HasTaken};

use crate::ending::WeaveEnd;
use crate::lines::{weave_all, weave_bytes};
use crate::progress::{MOST_BYTES, Progress};
use sc_outside::{Sink, Source, Steps};
use std::alloc::Global;
use std::sync::ledger::Ledger;

/// Weaves what is pending at the input's end.
fn finish<K: Sink, L: Ledger>(
    alloc: Global,
    progress: &mut Progress,
    pending: &[u8],
    sink: &mut K,
    steps: &mut Steps<L>,
) -> WeaveEnd
    ensures ends { (start : Option (List ℕ)) (taken : List ℕ) → HasTaken start (K.written sink.old) progress.old pending.now taken → EndsOn result (lines_to_read true taken) true start (K.written sink.new) }
    ensures read { (start : Option (List ℕ)) (taken : List ℕ) → HasTaken start (K.written sink.old) progress.old pending.now taken → result ≢ ReadFault }
    ensures write { result ≡ WriteFault → Rose (K.faults sink.old) (K.faults sink.new) }
    ensures later { K.faults sink.old ≤ K.faults sink.new }
{
    match weave_all(alloc, progress, pending, sink, steps) {
        Ok(()) => WeaveEnd::Done,
        Err(end) => end,
    }
}

/// Reads one step a line, takes the steps one after another over a catalogue of its own, and writes one line for what each
/// gives. Whatever the steps before gave is written before more input is waited for. A line is bad that is no step, that is past
/// 1,000,000 lines, or that holds a byte past the first 2^28; nothing behind it is taken as a step.
pub fn weave<S: Source, K: Sink, L: Ledger>(
    alloc: Global,
    source: &mut S,
    sink: &mut K,
    steps: &mut Steps<L>,
) -> WeaveEnd
    // On the bytes that it took, it ended as it should.
    ensures ran { WeaveRan result (S.left source.old) (S.left source.new) (S.ended source.new) (K.written sink.old) (K.written sink.new) }

    // A fault is answered only where the source or the sink had one in this call.
    ensures read { result ≡ ReadFault → Rose (S.faults source.old) (S.faults source.new) }
    ensures write { result ≡ WriteFault → Rose (K.faults sink.old) (K.faults sink.new) }
    ensures source_faults { S.faults source.old ≤ S.faults source.new }
    ensures sink_faults { K.faults sink.old ≤ K.faults sink.new }
{
    let mut progress = match Progress::new(alloc) {
        Ok(progress) => progress,
        Err(_) => return WeaveEnd::OutOfMemory,
    };
    let mut pending = Vec::new(alloc);
    let mut buf = [0u8; 65536];
    'reading: while progress.read + pending.len() <= MOST_BYTES {
        match source.read(&mut buf) {
            Ok(0) => return finish(alloc, &mut progress, pending.as_slice(), sink, steps),
            Ok(count) => {
                match weave_bytes(
                    alloc,
                    &mut progress,
                    &mut pending,
                    &buf[..count],
                    sink,
                    steps,
                ) {
                    Ok(()) => {}
                    Err(end) => return end,
                }
            }
            Err(_) => return WeaveEnd::ReadFault,
        }
    }
    WeaveEnd::BadStep {
        line: progress.count as u64 + 1,
    }
}
