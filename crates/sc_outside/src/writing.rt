ghost use Rattle.std.specs.Prelude.{OnOk, OnErr};
ghost use Rattle.std.specs.Io.KnownBytes.{Appends};
ghost use Rattle.sc_outside.specs.Causes.{HasCause};
ghost use Rattle.sc_outside.specs.Outside.{AppendsFront};

use crate::{Failed, Sink};

/// Writes all the bytes and flushes, or writes a front of them where the sink fails.
pub fn write_all<K: Sink>(sink: &mut K, bytes: &[u8]) -> Result<(), Failed>
    ensures ok { OnOk result (Appends (K.written sink.old) (K.written sink.new) bytes.now) }
    ensures err { OnErr result (AppendsFront (K.written sink.old) (K.written sink.new) bytes.now) }
    ensures cause { HasCause (K.faults sink.old) (K.faults sink.new) result }
{
    let mut rest = bytes;
    'writing: while !rest.is_empty() {
        let count = sink.write(rest)?;
        rest = &rest[count..];
    }
    sink.flush()
}
