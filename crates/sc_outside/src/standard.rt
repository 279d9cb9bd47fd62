ghost use Rattle.std.specs.Prelude.{◌≡◌, length};

use crate::{Failed, Sink, Source};
use std::io::{Read, Write};

/// A reader of std as a source. It tells its bytes where the reader does.
#[derive(Drop)]
pub struct StdSource<R: Read> {
    reader: R,
    faults: u64,
    ended: bool,
}

impl<R: Read> StdSource<R> {
    ghost use Rattle.sc_outside.specs.Standard.{IsNewSource};

    /// A source of what the reader has left, with no fault.
    pub fn new(reader: R) -> StdSource<R>
        ensures { IsNewSource R.remaining reader result }
    {
        StdSource {
            reader,
            faults: 0,
            ended: false,
        }
    }
}

impl<R: Read> Source for StdSource<R> {
    ghost use Rattle.std.specs.Io.{ReadsAtMost};
    ghost use Rattle.std.specs.Io.KnownBytes.{ReadConsumes};
    ghost use Rattle.sc_outside.specs.Causes.{HasCause, counted};
    ghost use Rattle.sc_outside.specs.Outside.{is_end};

    ghost left = { λ s. R.remaining s.reader };

    ghost faults = { λ s. s.faults };

    ghost ended = { λ s. s.ended };

    fn read(&mut self, buf: &mut [u8]) -> Result<usize, Failed>
        ensures bound { ReadsAtMost result buf.new }
        ensures bytes { ReadConsumes (R.remaining self.old.reader) (R.remaining self.new.reader) result buf.new }
        ensures end { self.new.ended ≡ is_end result (length buf.new) }
        ensures cause { HasCause self.old.faults self.new.faults result }
        ensures faults { self.new.faults ≡ counted result self.old.faults }
    {
        match self.reader.read(buf) {
            Ok(count) => {
                self.ended = count == 0 && !buf.is_empty();
                Ok(count)
            }
            Err(_) => {
                self.ended = false;
                self.faults = self.faults.saturating_add(1);
                Err(Failed)
            }
        }
    }
}

/// A writer of std as a sink. It tells its bytes where the writer does.
#[derive(Drop)]
pub struct StdSink<W: Write> {
    writer: W,
    faults: u64,
}

impl<W: Write> StdSink<W> {
    ghost use Rattle.sc_outside.specs.Standard.{IsNewSink};

    /// A sink of what the writer has, with no fault.
    pub fn new(writer: W) -> StdSink<W>
        ensures { IsNewSink W.contents writer result }
    {
        StdSink { writer, faults: 0 }
    }
}

impl<W: Write> Sink for StdSink<W> {
    ghost use Rattle.std.specs.Io.{WritesAtMost};
    ghost use Rattle.std.specs.Io.KnownBytes.{Keeps};
    ghost use Rattle.sc_outside.specs.Causes.{HasCause, counted};
    ghost use Rattle.sc_outside.specs.Outside.{WriteAdds, TakesSome};

    ghost written = { λ s. W.contents s.writer };

    ghost faults = { λ s. s.faults };

    fn write(&mut self, piece: &[u8]) -> Result<usize, Failed>
        ensures bound { WritesAtMost result piece.now }
        ensures bytes { WriteAdds (W.contents self.old.writer) (W.contents self.new.writer) result piece.now }
        ensures some { TakesSome result piece.now }
        ensures cause { HasCause self.old.faults self.new.faults result }
        ensures faults { self.new.faults ≡ counted result self.old.faults }
    {
        match self.writer.write(piece) {
            Ok(count) if count > 0 || piece.is_empty() => Ok(count),
            _ => {
                self.faults = self.faults.saturating_add(1);
                Err(Failed)
            }
        }
    }

    fn flush(&mut self) -> Result<(), Failed>
        ensures bytes { Keeps (W.contents self.old.writer) (W.contents self.new.writer) }
        ensures cause { HasCause self.old.faults self.new.faults result }
        ensures faults { self.new.faults ≡ counted result self.old.faults }
    {
        match self.writer.flush() {
            Ok(()) => Ok(()),
            Err(_) => {
                self.faults = self.faults.saturating_add(1);
                Err(Failed)
            }
        }
    }
}
