ghost use Rattle.std.specs.Prelude.{◌≡◌, ◌≤◌, ◌+◌, ◌<◌, take, drop, min, Contains, IfOk, IsErr, ◌↔◌, ◌⊎◌, Some, [], vec_len, vec_capacity, ◌-◌, ◌^◌, OnErr, length, false};

use crate::{Failed, Seq, Sink, Source};
use std::alloc::{AllocError, Global};

// Copies as much as fits, and answers how much.
fn copy_front(from: &[u8], into: &mut [u8]) -> usize
    ensures count { result ≡ min (length from.now) (length into.old) }
    ensures length { length into.new ≡ length into.old }
    ensures bytes { take result into.new ≡ take result from.now }
{
    let count = from.len().min(into.len());
    into[..count].copy_from_slice(&from[..count]);
    count
}

/// Bytes in memory as a source. The calls numbered in `failing`, from 0, fail.
#[derive(Drop)]
pub struct MemSource {
    bytes: Seq<u8>,
    at: usize,
    failing: Seq<u64>,
    calls: u64,
    faults: u64,
    ended: bool,
    ghost within: { at ≤ length bytes },
}

impl MemSource {
    ghost use Rattle.sc_outside.specs.Memory.{source_left, source_failing, source_calls, source_faults, source_ended};

    /// A source of these bytes, none of which was read.
    pub fn new(bytes: Seq<u8>, failing: Seq<u64>) -> MemSource
        ensures left { source_left result ≡ bytes }
        ensures failing { source_failing result ≡ failing }
        ensures calls { source_calls result ≡ 0 }
        ensures faults { source_faults result ≡ 0 }
        ensures ended { source_ended result ≡ false }
    {
        MemSource {
            bytes,
            at: 0,
            failing,
            calls: 0,
            faults: 0,
            ended: false,
        }
    }
}

impl Source for MemSource {
    ghost use Rattle.std.specs.Io.{ReadsAtMost};
    ghost use Rattle.std.specs.Io.KnownBytes.{ReadConsumes};
    ghost use Rattle.sc_outside.specs.Causes.{HasCause, counted};
    ghost use Rattle.sc_outside.specs.Outside.{is_end};
    ghost use Rattle.sc_outside.specs.Memory.{source_left, source_failing, source_calls, source_faults, source_ended};

    ghost left = { λ s. Some (drop s.at s.bytes) };

    ghost faults = { λ s. s.faults };

    ghost ended = { λ s. s.ended };

    fn read(&mut self, buf: &mut [u8]) -> Result<usize, Failed>
        ensures bound { ReadsAtMost result buf.new }
        ensures bytes { ReadConsumes (Some (source_left self.old)) (Some (source_left self.new)) result buf.new }
        ensures end { source_ended self.new ≡ is_end result (length buf.new) }
        ensures cause { HasCause (source_faults self.old) (source_faults self.new) result }

        // As much as fits is read.
        ensures full { IfOk result (λ n. n ≡ min (length (source_left self.old)) (length buf.old)) }

        // The calls that are to fail do, and no other, and each is counted once.
        ensures fails { IsErr result ↔ Contains (source_failing self.old) (source_calls self.old) }
        ensures faults { source_faults self.new ≡ counted result (source_faults self.old) }
        ensures failing { source_failing self.new ≡ source_failing self.old }
        ensures calls { source_calls self.new ≡ min (source_calls self.old + 1) (2 ^ 64 - 1) }
    {
        let call = self.calls;
        self.calls = call.saturating_add(1);
        if self.failing.as_slice().contains(&call) {
            self.ended = false;
            self.faults = self.faults.saturating_add(1);
            return Err(Failed);
        }
        let count = copy_front(&self.bytes.as_slice()[self.at..], buf);
        self.at += count;
        self.ended = count == 0 && !buf.is_empty();
        Ok(count)
    }
}

/// Memory as a sink, with room for so many bytes. The calls numbered in `failing`, from 0, fail.
#[derive(Drop)]
pub struct MemSink {
    bytes: Vec<u8>,
    room: usize,
    failing: Seq<u64>,
    calls: u64,
    faults: u64,
    ghost reserved: { room ≤ vec_capacity bytes },
    ghost within: { vec_len bytes ≤ room },
}

impl MemSink {
    ghost use Rattle.sc_outside.specs.Memory.{sink_bytes, sink_room, sink_failing, sink_calls, sink_faults};

    /// An empty sink, which takes its room of bytes now.
    pub fn new(alloc: Global, room: u64, failing: Seq<u64>) -> Result<MemSink, AllocError>
        ensures bytes { IfOk result (λ s. sink_bytes s ≡ []) }
        ensures room { IfOk result (λ s. sink_room s ≡ room) }
        ensures failing { IfOk result (λ s. sink_failing s ≡ failing) }
        ensures calls { IfOk result (λ s. sink_calls s ≡ 0) }
        ensures faults { IfOk result (λ s. sink_faults s ≡ 0) }
    {
        Ok(MemSink {
            bytes: Vec::with_capacity(alloc, room as usize)?,
            room: room as usize,
            failing,
            calls: 0,
            faults: 0,
        })
    }

    /// The bytes that were written.
    pub fn bytes(&self) -> &[u8]
        ensures { result.now ≡ sink_bytes self.now }
    {
        self.bytes.as_slice()
    }
}

impl Sink for MemSink {
    ghost use Rattle.std.specs.Io.{WritesAtMost};
    ghost use Rattle.std.specs.Io.KnownBytes.{Keeps};
    ghost use Rattle.sc_outside.specs.Causes.{HasCause, counted};
    ghost use Rattle.sc_outside.specs.Outside.{WriteAdds, TakesSome};
    ghost use Rattle.sc_outside.specs.Memory.{sink_bytes, sink_room, sink_failing, sink_calls, sink_faults};

    ghost written = { λ s. Some s.bytes.items };

    ghost faults = { λ s. s.faults };

    fn write(&mut self, piece: &[u8]) -> Result<usize, Failed>
        ensures bound { WritesAtMost result piece.now }
        ensures bytes { WriteAdds (Some (sink_bytes self.old)) (Some (sink_bytes self.new)) result piece.now }
        ensures some { TakesSome result piece.now }
        ensures cause { HasCause (sink_faults self.old) (sink_faults self.new) result }

        // The whole piece is written, or none of it.
        ensures whole { IfOk result (λ n. n ≡ length piece.now) }
        ensures none { OnErr result (sink_bytes self.new ≡ sink_bytes self.old) }

        // The calls that are to fail do, and those past the room, and no other. Each is counted once.
        ensures fails { IsErr result ↔ (Contains (sink_failing self.old) (sink_calls self.old) ⊎ (sink_room self.old < length (sink_bytes self.old) + length piece.now)) }
        ensures faults { sink_faults self.new ≡ counted result (sink_faults self.old) }
        ensures failing { sink_failing self.new ≡ sink_failing self.old }
        ensures calls { sink_calls self.new ≡ min (sink_calls self.old + 1) (2 ^ 64 - 1) }
        ensures room { sink_room self.new ≡ sink_room self.old }
    {
        let call = self.calls;
        self.calls = call.saturating_add(1);
        if self.failing.as_slice().contains(&call) {
            self.faults = self.faults.saturating_add(1);
            return Err(Failed);
        }
        if self.room - self.bytes.len() < piece.len() {
            self.faults = self.faults.saturating_add(1);
            return Err(Failed);
        }
        match self.bytes.extend_from_slice(piece) {
            Ok(()) => Ok(piece.len()),
            Err(_) => unreachable!(),
        }
    }

    fn flush(&mut self) -> Result<(), Failed>
        ensures bytes { Keeps (Some (sink_bytes self.old)) (Some (sink_bytes self.new)) }
        ensures cause { HasCause (sink_faults self.old) (sink_faults self.new) result }

        // The calls that are to fail do, and no other, and each is counted once.
        ensures fails { IsErr result ↔ Contains (sink_failing self.old) (sink_calls self.old) }
        ensures faults { sink_faults self.new ≡ counted result (sink_faults self.old) }
        ensures failing { sink_failing self.new ≡ sink_failing self.old }
        ensures calls { sink_calls self.new ≡ min (sink_calls self.old + 1) (2 ^ 64 - 1) }
        ensures room { sink_room self.new ≡ sink_room self.old }
    {
        let call = self.calls;
        self.calls = call.saturating_add(1);
        if self.failing.as_slice().contains(&call) {
            self.faults = self.faults.saturating_add(1);
            return Err(Failed);
        }
        Ok(())
    }
}
