ghost use Rattle.std.specs.Prelude.{◌≡◌, ◌++◌, ℕ, ◌≤◌, ◌^◌, ◌-◌, min, length, decimal, IfOk};
ghost use Rattle.sc_outside.specs.Causes.{Rose};
ghost use Rattle.stacd.specs.Serving.{base_start, base_of, loads_start, items_middle, line_of, status_of_serving, IsLineOf, Serves};

use arrayvec::ArrayString;
use itoa::Buffer;
use sc_base::{Seq, Text};
use sc_catalog::Catalogue;
use sc_outside::{Listen, Sink, write_all};
use sc_server::{Served, serve_all};
use sc_words::Serving;
use std::alloc::{AllocError, Global};
use std::mem;
use std::sync::Wait;
use std::thread::Threads;

/// How a run of the server ends.
#[derive(Clone, Copy, Debug, PartialEq, Eq)]
pub enum ServeEnd {
    /// Each worker served its connections, and the line was written.
    Done,
    /// As `Done`, but a listener failed.
    ListenFault,
    /// The output failed, and has a front of the line.
    WriteFault,
    OutOfMemory,
}

#[tactic(auto, unfolding(crate::specs::Serving::base_start))]
fn start_of_base() -> &'static str
    ensures { result.now ≡ base_start }
{
    "http://127.0.0.1:"
}

/// The address of the server at a port, without a slash at its end.
pub(crate) fn base_at(alloc: Global, port: u16) -> Result<Text, AllocError>
    ensures { IfOk result (λ base. base ≡ base_of port) }
{
    let mut digits = Buffer::new();
    let mut base = Text::from_str(alloc, start_of_base())?;
    base.push_str(digits.format(port))?;
    Ok(base)
}

#[tactic(auto, unfolding(crate::specs::Serving::loads_start))]
fn start_of_line() -> &'static str
    ensures start { result.now ≡ loads_start }
    ensures length { length result.now ≡ 6 }
{
    "loads "
}

#[tactic(auto, unfolding(crate::specs::Serving::items_middle))]
fn middle_of_line() -> &'static str
    ensures middle { result.now ≡ items_middle }
    ensures length { length result.now ≡ 7 }
{
    " items "
}

/// The line of so many loads and items.
fn line(loads: u64, items: u64) -> ArrayString<64>
    ensures { result.bytes ≡ line_of loads items }
{
    let mut digits = Buffer::new();
    let mut text = ArrayString::new();
    text.push_str(start_of_line());
    text.push_str(digits.format(loads));
    text.push_str(middle_of_line());
    text.push_str(digits.format(items));
    text.push_str("\n");
    text
}

/// The line of a catalogue's history.
pub(crate) fn line_of_catalogue(
    alloc: Global,
    catalogue: &Catalogue,
) -> Result<ArrayString<64>, AllocError>
    ensures { IfOk result (λ line. IsLineOf catalogue.now.entries line.bytes) }
{
    let loads = catalogue.revision();
    let snapshot = catalogue.snapshot(alloc)?;
    Ok(line(loads, snapshot.item_count()))
}

/// The status of an end.
pub fn status_of_end(end: ServeEnd) -> u8
    ensures { result ≡ status_of_serving end }
{
    match end {
        ServeEnd::Done => 0,
        ServeEnd::WriteFault => 5,
        ServeEnd::OutOfMemory => 6,
        ServeEnd::ListenFault => 7,
    }
}

/// Serves the listeners over one new catalogue, each by a worker of its own, beside so many workers that tighten bounds, and
/// writes the line of its history at the end.
/// After want of memory the listeners may be gone.
pub fn serve<R: Threads + Wait + Sync, K: Sink, L: Listen + Send + Drop>(
    rt: &R,
    alloc: Global,
    serving: Serving,
    output: &mut K,
    nets: &mut Seq<L>,
) -> ServeEnd
where
    L::In: Send,
    L::Out: Send,
    requires workers { length nets.old ≡ serving.workers }
    requires some { (1 ≤ serving.workers) × (serving.workers ≤ 8) }
    requires few { serving.tighteners ≤ 8 }
    ensures ran { Serves L.In.left L.In.ended L.In.faults L.Out.written L.Out.faults L.left L.handed_back L.faults result (base_of serving.port) serving.connections serving.tighteners nets.old nets.new (K.written output.old) (K.written output.new) }
    ensures write { result ≡ ServeEnd.WriteFault → Rose (K.faults output.old) (K.faults output.new) }
{
    let Ok(base) = base_at(alloc, serving.port) else {
        return ServeEnd::OutOfMemory;
    };
    let listeners = mem::replace(nets, Seq::new(alloc));
    match serve_all(
        rt,
        alloc,
        &base,
        listeners,
        serving.tighteners,
        serving.connections,
    ) {
        Err(_) => ServeEnd::OutOfMemory,
        Ok(
            Served {
                catalogue,
                nets: back,
                listen_failed,
                unheard: _,
            },
        ) => {
            *nets = back;
            let Ok(line) = line_of_catalogue(alloc, &catalogue) else {
                return ServeEnd::OutOfMemory;
            };
            match write_all(output, line.as_bytes()) {
                Err(_) => ServeEnd::WriteFault,
                Ok(()) if listen_failed => ServeEnd::ListenFault,
                Ok(()) => ServeEnd::Done,
            }
        }
    }
}
