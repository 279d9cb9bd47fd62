ghost use Rattle.std.specs.Prelude.{◌≡◌, ℕ, List, Bool, length};
ghost use Rattle.std.specs.declared.option.Option.{Option};
ghost use Rattle.std.specs.Io.{ReadsAtMost, WritesAtMost};
ghost use Rattle.std.specs.Io.KnownBytes.{ReadConsumes, Keeps};
ghost use Rattle.sc_outside.specs.Causes.{HasCause};
ghost use Rattle.sc_outside.specs.Outside.{is_end, WriteAdds, TakesSome};

/// A call of the outside failed. The object's count of faults rose.
#[derive(Clone, Copy, Debug, PartialEq, Eq)]
pub struct Failed;

/// Where bytes come from.
pub trait Source {
    /// The bytes that are left, where the source tells them.
    ghost left: { Self → Option (List ℕ) };

    /// How often it has failed.
    ghost faults: { Self → ℕ };

    /// Whether its last read answered `Ok(0)` for a buffer that isn't empty.
    ghost ended: { Self → Bool };

    /// Takes the next bytes into the front of `buf`, and answers how many.
    /// `Ok(0)` for a buffer that isn't empty is the end: the bytes left, where told, are none.
    /// `Failed` takes nothing, and comes only where the count of faults rose.
    fn read(&mut self, buf: &mut [u8]) -> Result<usize, Failed>
        ensures bound { ReadsAtMost result buf.new }
        ensures bytes { ReadConsumes (left self.old) (left self.new) result buf.new }
        ensures end { ended self.new ≡ is_end result (length buf.new) }
        ensures cause { HasCause (faults self.old) (faults self.new) result };
}

/// Where bytes go.
pub trait Sink {
    /// The bytes that were written, where the sink tells them.
    ghost written: { Self → Option (List ℕ) };

    /// How often it has failed.
    ghost faults: { Self → ℕ };

    /// Writes a front of the piece, and answers how many bytes of it: at least one of a piece that isn't empty.
    /// `Failed` may have written some front too, and comes only where the count of faults rose.
    fn write(&mut self, piece: &[u8]) -> Result<usize, Failed>
        ensures bound { WritesAtMost result piece.now }
        ensures bytes { WriteAdds (written self.old) (written self.new) result piece.now }
        ensures some { TakesSome result piece.now }
        ensures cause { HasCause (faults self.old) (faults self.new) result };

    /// Hands on what was written, and leaves the bytes written as they were.
    /// `Failed` comes only where the count of faults rose.
    fn flush(&mut self) -> Result<(), Failed>
        ensures bytes { Keeps (written self.old) (written self.new) }
        ensures cause { HasCause (faults self.old) (faults self.new) result };
}
