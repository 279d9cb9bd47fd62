ghost use Rattle.std.specs.Prelude.{◌≡◌, ◌≤◌, ◌++◌, ◌∷◌, [], List, ℕ, Bool, IfErr, MatchResult};
ghost use Rattle.std.specs.declared.option.Option.{Option};
ghost use Rattle.sc_outside.specs.Causes.{Rose};
ghost use Rattle.sc_outside.specs.Lines.{lines_of, lines_to_read};
ghost use Rattle.sc_weave.specs.declared.ending.WeaveEnd.TheVariants.{WriteFault};
ghost use Rattle.sc_weave.specs.Inside.{HasTaken, HasTold, HasWritten, IsBehindFeeds, Stops};

use crate::ending::WeaveEnd;
use crate::progress::{Progress, weave_line};
use crate::writing::{end_at_line, write_out};
use memchr::memrchr;
use sc_outside::{Sink, Steps, next_line};
use sc_script::StepFault;
use std::alloc::Global;
use std::sync::ledger::Ledger;

/// How many bytes may wait before they are written.
const MOST_WAITING: usize = 65_536;

/// Writes what waits where it is much.
fn write_if_full<K: Sink>(progress: &mut Progress, sink: &mut K) -> Result<(), WeaveEnd>
    ensures stops { (start : Option (List ℕ)) (lines rest : List (List ℕ)) → HasTold start (K.written sink.old) progress.old lines →
        MatchResult result (λ _. HasTold start (K.written sink.new) progress.new lines) (λ end. Stops end (lines ++ rest) start (K.written sink.new)) }
    ensures write { IfErr result (λ end. end ≡ WriteFault → Rose (K.faults sink.old) (K.faults sink.new)) }
    ensures later { K.faults sink.old ≤ K.faults sink.new }
{
    if progress.out.len() < MOST_WAITING {
        return Ok(());
    }
    match write_out(progress, sink) {
        Ok(()) => Ok(()),
        Err(_) => Err(WeaveEnd::WriteFault),
    }
}

/// Weaves the next line, or ends at it.
fn weave_next<K: Sink, L: Ledger>(
    alloc: Global,
    progress: &mut Progress,
    line: &[u8],
    sink: &mut K,
    steps: &mut Steps<L>,
) -> Result<(), WeaveEnd>
    ensures stops { (start : Option (List ℕ)) (lines rest : List (List ℕ)) → HasTold start (K.written sink.old) progress.old lines →
        MatchResult result (λ _. HasTold start (K.written sink.new) progress.new (lines ++ line.now ∷ [])) (λ end. Stops end (lines ++ line.now ∷ rest) start (K.written sink.new)) }
    ensures write { IfErr result (λ end. end ≡ WriteFault → Rose (K.faults sink.old) (K.faults sink.new)) }
    ensures later { K.faults sink.old ≤ K.faults sink.new }
{
    match weave_line(alloc, progress, line, steps) {
        Ok(()) => write_if_full(progress, sink),
        Err(StepFault::BadStep) => Err(end_at_line(progress, sink)),
        Err(StepFault::OutOfMemory) => Err(WeaveEnd::OutOfMemory),
    }
}

/// Weaves all lines of these bytes, of which the last may lack its line feed.
fn weave_lines<K: Sink, L: Ledger>(
    alloc: Global,
    progress: &mut Progress,
    bytes: &[u8],
    sink: &mut K,
    steps: &mut Steps<L>,
) -> Result<(), WeaveEnd>
    ensures stops { (start : Option (List ℕ)) (lines : List (List ℕ)) → HasTold start (K.written sink.old) progress.old lines →
        MatchResult result (λ _. HasTold start (K.written sink.new) progress.new (lines ++ lines_of bytes.now)) (λ end. Stops end (lines ++ lines_of bytes.now) start (K.written sink.new)) }
    ensures write { IfErr result (λ end. end ≡ WriteFault → Rose (K.faults sink.old) (K.faults sink.new)) }
    ensures later { K.faults sink.old ≤ K.faults sink.new }
{
    let mut rest = bytes;
    'weaving: while let Some((line, after)) = next_line(rest, true) {
        match weave_next(alloc, progress, line, sink, steps) {
            Ok(()) => {}
            Err(end) => return Err(end),
        }
        rest = after;
    }
    Ok(())
}

/// Weaves all lines of these bytes, and writes what was told.
pub(crate) fn weave_all<K: Sink, L: Ledger>(
    alloc: Global,
    progress: &mut Progress,
    bytes: &[u8],
    sink: &mut K,
    steps: &mut Steps<L>,
) -> Result<(), WeaveEnd>
    ensures stops { (start : Option (List ℕ)) (lines : List (List ℕ)) → HasTold start (K.written sink.old) progress.old lines →
        MatchResult result (λ _. HasWritten start (K.written sink.new) progress.new (lines ++ lines_of bytes.now)) (λ end. Stops end (lines ++ lines_of bytes.now) start (K.written sink.new)) }
    ensures write { IfErr result (λ end. end ≡ WriteFault → Rose (K.faults sink.old) (K.faults sink.new)) }
    ensures later { K.faults sink.old ≤ K.faults sink.new }
{
    match weave_lines(alloc, progress, bytes, sink, steps) {
        Ok(()) => {}
        Err(end) => return Err(end),
    }
    match write_out(progress, sink) {
        Ok(()) => Ok(()),
        Err(_) => Err(WeaveEnd::WriteFault),
    }
}

/// The place behind the last line feed; 0 where there is none.
fn behind_feeds(bytes: &[u8]) -> usize
    ensures { IsBehindFeeds bytes.now result }
{
    match memrchr(b'\n', bytes) {
        Some(at) => at + 1,
        None => 0,
    }
}

/// Weaves the lines that these bytes end. The front of the next line stays pending.
pub(crate) fn weave_bytes<K: Sink, L: Ledger>(
    alloc: Global,
    progress: &mut Progress,
    pending: &mut Vec<u8>,
    bytes: &[u8],
    sink: &mut K,
    steps: &mut Steps<L>,
) -> Result<(), WeaveEnd>
    ensures stops { (start : Option (List ℕ)) (taken : List ℕ) → HasTaken start (K.written sink.old) progress.old pending.old.items taken →
        MatchResult result (λ _. HasTaken start (K.written sink.new) progress.new pending.new.items (taken ++ bytes.now)) (λ end. (all : Bool) → Stops end (lines_to_read all (taken ++ bytes.now)) start (K.written sink.new)) }
    ensures write { IfErr result (λ end. end ≡ WriteFault → Rose (K.faults sink.old) (K.faults sink.new)) }
    ensures later { K.faults sink.old ≤ K.faults sink.new }
{
    let end = behind_feeds(bytes);
    if end == 0 {
        return match pending.extend_from_slice(bytes) {
            Ok(()) => Ok(()),
            Err(_) => Err(WeaveEnd::OutOfMemory),
        };
    }
    let (whole, rest) = bytes.split_at(end);
    match pending.extend_from_slice(whole) {
        Ok(()) => {}
        Err(_) => return Err(WeaveEnd::OutOfMemory),
    }
    match weave_all(alloc, progress, pending.as_slice(), sink, steps) {
        Ok(()) => {}
        Err(end) => return Err(end),
    }
    pending.clear();
    match pending.extend_from_slice(rest) {
        Ok(()) => Ok(()),
        Err(_) => Err(WeaveEnd::OutOfMemory),
    }
}
