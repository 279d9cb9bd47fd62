ghost use Rattle.std.specs.Prelude.{◌≡◌, ◌≤◌, ℕ, true, length, IfOk, IfErr, is_some};
ghost use Rattle.sc_outside.specs.Causes.{Rose};
ghost use Rattle.sc_kept.specs.Keeping.{Keeping as KeptRecord};
ghost use Rattle.stacd.specs.Serving.{base_of};
ghost use Rattle.stacd.specs.Keeping.{IsLeft, IsOpened, IsRefused, ServesKept, status_of_keeping};

use crate::serving::{base_at, line_of_catalogue};
use sc_base::Seq;
use sc_keep::{Disk, Kept};
use sc_kept::{OpenFault, ReopenRefused, reopen};
use sc_outside::{Listen, Sink, write_all};
use sc_server::{KeptServed, keep_all};
use sc_words::Keeping;
use std::alloc::Global;
use std::mem;
use std::sync::Wait;
use std::thread::Threads;

/// How a run of a server with a journal ends.
#[derive(Clone, Copy, Debug, PartialEq, Eq)]
pub enum KeepEnd {
    /// Each worker served its connections, and the line was written.
    Done,
    /// As `Done`, but a listener failed.
    ListenFault,
    /// The record of this number, from 0, isn't whole, is no load, or is refused by the loads before it.
    BadRecord { n: u64 },
    /// The output failed, and has a front of the line.
    WriteFault,
    /// The disk failed when the journal was opened.
    DiskFault,
    OutOfMemory,
}

/// The status of an end.
pub fn status_of_end(end: KeepEnd) -> u8
    ensures { result ≡ status_of_keeping end }
{
    match end {
        KeepEnd::Done => 0,
        KeepEnd::BadRecord { .. } => 3,
        KeepEnd::WriteFault => 5,
        KeepEnd::OutOfMemory => 6,
        KeepEnd::ListenFault => 7,
        KeepEnd::DiskFault => 8,
    }
}

/// Opens the journal of a disk, or hands the disk back.
fn open<D: Disk + Drop>(alloc: Global, disk: &mut Option<D>) -> Result<Kept<D>, KeepEnd>
    requires { is_some disk.old ≡ true }
    ensures ok { IfOk result (λ kept. IsOpened D.tells D.reads disk.old kept) }
    ensures err { IfErr result (λ end. IsRefused D.tells D.reads D.faults end disk.old disk.new) }
{
    let Some(held) = disk.take() else {
        unreachable!()
    };
    match reopen(alloc, held) {
        Ok(kept) => Ok(kept),
        Err(ReopenRefused { fault, disk: back }) => {
            *disk = Some(back);
            Err(match fault {
                OpenFault::DiskFault => KeepEnd::DiskFault,
                OpenFault::BadRecord { n } => KeepEnd::BadRecord { n },
                OpenFault::OutOfMemory => KeepEnd::OutOfMemory,
            })
        }
    }
}

/// Hands the disk of a kept catalogue back. How many loads are stored isn't told: what the count stands for is.
fn close<D: Disk + Drop>(kept: Kept<D>, disk: &mut Option<D>)
    ensures { IsLeft D.tells D.may_leave D.faults kept disk.new }
{
    let _stored = kept.stored();
    *disk = Some(kept.into_disk());
}

/// Serves the listeners over the catalogue whose journal is on the disk, each by a worker of its own, and writes the line of
/// its history at the end. Each load is stored before it is answered, or is answered as not stored.
/// After want of memory the listeners and the disk may be gone.
pub fn keep<R: Threads + Wait + Sync, K: Sink, L: Listen + Send + Drop, D: Disk + Send + Drop>(
    rt: &R,
    alloc: Global,
    keeping: Keeping<'_>,
    output: &mut K,
    nets: &mut Seq<L>,
    disk: &mut Option<D>,
) -> KeepEnd
where
    L::In: Send,
    L::Out: Send,
    requires workers { length nets.old ≡ keeping.workers }
    requires some { (1 ≤ keeping.workers) × (keeping.workers ≤ 8) }
    requires held { is_some disk.old ≡ true }
    ensures ran { ServesKept L.In.left L.In.ended L.In.faults L.Out.written L.Out.faults L.left L.handed_back L.faults D.tells D.reads D.may_leave D.faults result (base_of keeping.entry.port) keeping.entry.connections nets.old nets.new disk.old disk.new (K.written output.old) (K.written output.new) }
    ensures write { result ≡ KeepEnd.WriteFault → Rose (K.faults output.old) (K.faults output.new) }
{
    let Ok(base) = base_at(alloc, keeping.port) else {
        return KeepEnd::OutOfMemory;
    };
    let kept = match open(alloc, disk) {
        Ok(kept) => kept,
        Err(end) => return end,
    };
    let listeners = mem::replace(nets, Seq::new(alloc));
    match keep_all(rt, alloc, &base, listeners, kept, keeping.connections) {
        Err(_) => KeepEnd::OutOfMemory,
        Ok(
            KeptServed {
                kept,
                nets: back,
                listen_failed,
            },
        ) => {
            *nets = back;
            let line = line_of_catalogue(alloc, kept.catalogue());
            close(kept, disk);
            let Ok(line) = line else {
                return KeepEnd::OutOfMemory;
            };
            match write_all(output, line.as_bytes()) {
                Err(_) => KeepEnd::WriteFault,
                Ok(()) if listen_failed => KeepEnd::ListenFault,
                Ok(()) => KeepEnd::Done,
            }
        }
    }
}
