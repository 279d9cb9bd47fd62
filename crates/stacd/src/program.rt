ghost use Rattle.std.specs.Prelude.{◌≡◌, ℕ, IfOk, length, map, is_some, true};
ghost use Rattle.sc_outside.specs.Causes.{Rose};
ghost use Rattle.sc_words.specs.Asks.{AreKeepWords, AreServeWords};
ghost use Rattle.sc_words.specs.declared.command.Keeping.{Keeping as KeepingRecord};
ghost use Rattle.sc_words.specs.declared.command.Serving.{Serving as ServingRecord};
ghost use Rattle.stacd.specs.Keeping.{HasFailedDisk};
ghost use Rattle.stacd.specs.Program.{CanRun, Runs, RunsCommand, status_of, status_of_connection};
ghost use Rattle.stacd.specs.Serving.{HasFailed};

use crate::keeping::keep;
use crate::page::{PageEnd, page};
use crate::serving::serve;
use crate::tell::{
    tell_connection, tell_end, tell_keeping, tell_no_memory, tell_serving, tell_usage,
};
use crate::{keeping, serving};
use sc_keep::Disk;
use sc_outside::{Listen, Seq, Sink, Source};
use sc_page::Text;
use sc_serve::{ConnEnd, pipe};
use sc_words::{Command, command_of};
use std::alloc::{AllocError, Global};
use std::sync::Wait;
use std::thread::Threads;

/// The status of an end.
fn status(end: PageEnd) -> u8
    ensures { result ≡ status_of end }
{
    match end {
        PageEnd::Done => 0,
        PageEnd::BadLine { .. } => 3,
        PageEnd::ReadFault => 4,
        PageEnd::WriteFault => 5,
        PageEnd::OutOfMemory => 6,
    }
}

/// The status of the end of a connection.
fn status_of_end(end: ConnEnd) -> u8
    ensures { result ≡ status_of_connection end }
{
    match end {
        ConnEnd::Ended => 0,
        ConnEnd::Cut { .. } => 3,
        ConnEnd::BadHead { .. } => 3,
        ConnEnd::BadLength { .. } => 3,
        ConnEnd::Spent => 3,
        ConnEnd::ReadFault => 4,
        ConnEnd::WriteFault => 5,
        ConnEnd::OutOfMemory => 6,
    }
}

/// The words, lent.
pub(crate) fn lent<'a>(alloc: Global, words: &'a [Text]) -> Result<Vec<&'a str>, AllocError>
    ensures { IfOk result (λ lent. map (λ s. s.now) lent.items ≡ words.now) }
{
    let mut lent = Vec::with_capacity(alloc, words.len())?;
    for word in words {
        lent.push(word.as_str())?;
    }
    Ok(lent)
}

/// Does what a command asks for, and answers its status.
fn run<
    R: Threads + Wait + Sync,
    S: Source,
    K: Sink,
    E: Sink,
    L: Listen + Send + Drop,
    D: Disk + Send + Drop,
>(
    rt: &R,
    alloc: Global,
    command: Command<'_>,
    input: &mut S,
    output: &mut K,
    errors: &mut E,
    nets: &mut Seq<L>,
    disk: &mut Option<D>,
) -> u8
where
    L::In: Send,
    L::Out: Send,
    requires { CanRun (length nets.old) (is_some disk.old) command }
    ensures ran { RunsCommand L.In.left L.In.ended L.In.faults L.Out.written L.Out.faults L.left L.handed_back L.faults D.tells D.reads D.may_leave D.faults
        (record { left = S.left input.old; ended = S.ended input.old; faults = S.faults input.old }) (record { left = S.left input.new; ended = S.ended input.new; faults = S.faults input.new })
        (record { written = K.written output.old; faults = K.faults output.old }) (record { written = K.written output.new; faults = K.faults output.new })
        (record { written = E.written errors.old; faults = E.faults errors.old }) (record { written = E.written errors.new; faults = E.faults errors.new })
        nets.old nets.new disk.old disk.new command.entry result }

    // A fault is answered only where there was one in this call.
    ensures read { result ≡ 4 → Rose (S.faults input.old) (S.faults input.new) }
    ensures write { result ≡ 5 → Rose (K.faults output.old) (K.faults output.new) }
    ensures listen { result ≡ 7 → HasFailed L.faults nets.old nets.new }
    ensures disk { result ≡ 8 → HasFailedDisk D.faults disk.old disk.new }
{
    match command {
        Command::Page { limit } => {
            let end = page(alloc, limit, input, output);
            tell_end(errors, end);
            status(end)
        }
        Command::Pipe { base } => match Text::from_str(alloc, base) {
            Ok(base) => {
                let end = pipe(alloc, &base, input, output);
                tell_connection(errors, end);
                status_of_end(end)
            }
            Err(_) => {
                tell_no_memory(errors);
                6
            }
        },
        Command::Serve(serving) => {
            let end = serve(rt, alloc, serving, output, nets);
            tell_serving(errors, end);
            serving::status_of_end(end)
        }
        Command::Keep(keeping) => {
            let end = keep(rt, alloc, keeping, output, nets, disk);
            tell_keeping(errors, end);
            keeping::status_of_end(end)
        }
    }
}

/// Runs the program on the words behind its name, over its input and outputs, the listeners of a server and the disk of its
/// journal, and answers its status. 0: done. 2: the words are no command. 3: the input, or the journal, isn't what the command
/// reads. 4: the input failed. 5: the output failed. 6: memory was wanting. 7: a listener failed. 8: the disk failed when the
/// journal was opened. But for 0 it tells a text on `errors`; where that fails, the status stays. The condition is that there
/// are as many listeners as a command `serve` or `keep` asks workers for, and a disk for `keep`. It waits where it serves.
pub fn stacd<
    R: Threads + Wait + Sync,
    S: Source,
    K: Sink,
    E: Sink,
    L: Listen + Send + Drop,
    D: Disk + Send + Drop,
>(
    rt: &R,
    alloc: Global,
    words: &[Text],
    input: &mut S,
    output: &mut K,
    errors: &mut E,
    nets: &mut Seq<L>,
    disk: &mut Option<D>,
) -> u8
where
    L::In: Send,
    L::Out: Send,
    requires serving { (serving : ServingRecord) → AreServeWords words.now serving → length nets.old ≡ serving.workers }
    requires keeping { (keeping : KeepingRecord) → AreKeepWords words.now keeping → (length nets.old ≡ keeping.workers) × (is_some disk.old ≡ true) }
    ensures ran { Runs L.In.left L.In.ended L.In.faults L.Out.written L.Out.faults L.left L.handed_back L.faults D.tells D.reads D.may_leave D.faults
        (record { left = S.left input.old; ended = S.ended input.old; faults = S.faults input.old }) (record { left = S.left input.new; ended = S.ended input.new; faults = S.faults input.new })
        (record { written = K.written output.old; faults = K.faults output.old }) (record { written = K.written output.new; faults = K.faults output.new })
        (record { written = E.written errors.old; faults = E.faults errors.old }) (record { written = E.written errors.new; faults = E.faults errors.new })
        nets.old nets.new disk.old disk.new words.now result }

    // A fault is answered only where there was one in this call.
    ensures read { result ≡ 4 → Rose (S.faults input.old) (S.faults input.new) }
    ensures write { result ≡ 5 → Rose (K.faults output.old) (K.faults output.new) }
    ensures listen { result ≡ 7 → HasFailed L.faults nets.old nets.new }
    ensures disk { result ≡ 8 → HasFailedDisk D.faults disk.old disk.new }
{
    let Ok(lent) = lent(alloc, words) else {
        tell_no_memory(errors);
        return 6;
    };
    match command_of(alloc, &lent) {
        Err(_) => {
            tell_no_memory(errors);
            6
        }
        Ok(None) => {
            tell_usage(errors);
            2
        }
        Ok(Some(command)) => run(rt, alloc, command, input, output, errors, nets, disk),
    }
}
