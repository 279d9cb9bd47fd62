//! Writing what was told, and ends that come of a line.
ghost use Rattle.std.specs.Prelude.{◌≡◌, ◌≤◌, ◌++◌, ◌∷◌, List, ℕ, OnErr, OnOk};
ghost use Rattle.std.specs.declared.option.Option.{Option};
ghost use Rattle.sc_outside.specs.Causes.{HasCause, Rose};
ghost use Rattle.sc_weave.specs.declared.ending.WeaveEnd.TheVariants.{WriteFault};
ghost use Rattle.sc_weave.specs.Weaving.{WritesFront};
ghost use Rattle.sc_weave.specs.Inside.{CantFollow, HasTold, HasWritten, Stops};

use crate::ending::WeaveEnd;
use crate::progress::Progress;
use sc_outside::{Failed, Sink, write_all};

/// Writes what waits.
pub(crate) fn write_out<K: Sink>(progress: &mut Progress, sink: &mut K) -> Result<(), Failed>
    ensures ok { (start : Option (List ℕ)) (lines : List (List ℕ)) → HasTold start (K.written sink.old) progress.old lines → OnOk result (HasWritten start (K.written sink.new) progress.new lines) }
    ensures err { (start : Option (List ℕ)) (lines : List (List ℕ)) → HasTold start (K.written sink.old) progress.old lines → OnErr result (WritesFront lines start (K.written sink.new)) }
    ensures cause { HasCause (K.faults sink.old) (K.faults sink.new) result }
{
    match write_all(sink, progress.out.as_str().as_bytes()) {
        Ok(()) => {}
        Err(failed) => return Err(failed),
    }
    progress.out.clear();
    Ok(())
}

/// The end that comes of the line behind those that were woven, where it can't follow them: what waits is written before it is
/// told.
pub(crate) fn end_at_line<K: Sink>(progress: &mut Progress, sink: &mut K) -> WeaveEnd
    ensures stops { (start : Option (List ℕ)) (lines rest : List (List ℕ)) (line : List ℕ) → HasTold start (K.written sink.old) progress.old lines → CantFollow lines line → Stops result (lines ++ line ∷ rest) start (K.written sink.new) }
    ensures write { result ≡ WriteFault → Rose (K.faults sink.old) (K.faults sink.new) }
    ensures later { K.faults sink.old ≤ K.faults sink.new }
{
    let line = (progress.count as u64).saturating_add(1);
    match write_out(progress, sink) {
        Ok(()) => WeaveEnd::BadStep { line },
        Err(_) => WeaveEnd::WriteFault,
    }
}
