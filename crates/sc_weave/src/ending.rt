ghost use Rattle.std.specs.Prelude.{◌≡◌};
ghost use Rattle.sc_weave.specs.declared.ending.WeaveEnd.TheVariants.{OutOfMemory};

use std::alloc::AllocError;

/// How a run of a script ends.
#[derive(Clone, Copy, Debug, PartialEq, Eq)]
pub enum WeaveEnd {
    /// The input was read to its end, and a line for each of its steps was written.
    Done,
    /// The line of this number, from 1, is the first that is no step or is past a limit. The lines for the steps before it were
    /// written.
    BadStep { line: u64 },
    /// The input failed. The lines for all steps before that were written.
    ReadFault,
    /// The output failed, and has a front of the lines.
    WriteFault,
    /// There wasn't enough memory, and the output has a front of the lines. It may come in place of any other end.
    OutOfMemory,
}

impl From<AllocError> for WeaveEnd {
    ghost from_gives = { λ _ e. e ≡ OutOfMemory };

    fn from(_: AllocError) -> Self {
        WeaveEnd::OutOfMemory
    }
}
