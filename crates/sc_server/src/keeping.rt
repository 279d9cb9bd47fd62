//! All workers over one kept catalogue at once, each in a thread of its own.
ghost use Rattle.std.specs.Prelude.{◌≡◌, ◌≤◌, length, vec_len, vec_capacity, IfOk};
ghost use Rattle.sc_keep.specs.Turns.{kept_api};
ghost use Rattle.sc_server.specs.Keepers.{AreLeft, HaveKept, IsKeptServed};

use crate::keeper::{Keeper, dismiss, employ};
use sc_base::{Seq, Text};
use sc_keep::{Card, Disk, Kept, close, make};
use sc_outside::Listen;
use std::alloc::{AllocError, Global};
use std::sync::Wait;
use std::thread;
use std::thread::Threads;

/// What a server of a kept catalogue leaves at its end.
#[derive(Drop)]
pub struct KeptServed<L, D: Disk> {
    /// The catalogue, with the one history of all loads, and the journal of it.
    pub kept: Kept<D>,
    /// The listeners, in their order.
    pub nets: Seq<L>,
    /// Whether a listener failed.
    pub listen_failed: bool,
}

/// Serves all listeners at the same time, each by its worker in a thread of its own; where a thread can't be started the
/// caller does its work.
fn serve_listeners<'d, R: Threads + Wait + Sync, L: Listen + Send, D: Disk + Send>(
    rt: &R,
    alloc: Global,
    base: &Text,
    keepers: &mut Vec<Keeper<'d, L, D>>,
    most: u64,
)
where
    L::In: Send,
    L::Out: Send,
    ensures { HaveKept L.In.left L.In.ended L.In.faults L.Out.written L.Out.faults (kept_api D.faults base.now) L.left L.handed_back L.faults most keepers.old.items keepers.new.items }
{
    let threads = keepers.len().max(1);
    thread::for_each_mut(
        rt,
        keepers.as_mut_slice(),
        threads,
        &|_, keeper| keeper.work(rt, alloc, base, most),
    );
}

/// All workers serve their listeners, and leave.
fn serve_and_leave<'d, R: Threads + Wait + Sync, L: Listen + Send + Drop, D: Disk + Send + Drop>(
    rt: &R,
    alloc: Global,
    base: &Text,
    mut keepers: Vec<Keeper<'d, L, D>>,
    cards: Vec<Card<Kept<D>>>,
    nets: Vec<L>,
    most: u64,
) -> (Seq<Card<Kept<D>>>, Seq<L>, bool)
where
    L::In: Send,
    L::Out: Send,
    requires cards { (vec_len cards ≡ 0) × (vec_len keepers ≤ vec_capacity cards) }
    requires nets { (vec_len nets ≡ 0) × (vec_len keepers ≤ vec_capacity nets) }
    ensures { AreLeft L.In.left L.In.ended L.In.faults L.Out.written L.Out.faults (kept_api D.faults base.now) L.left L.handed_back L.faults most keepers.entry.items result.0 result.1 result.2 }
{
    serve_listeners(rt, alloc, base, &mut keepers, most);
    dismiss(keepers, cards, nets)
}

/// Serves the connections of all listeners over a kept catalogue, until each listener has none left or has failed, or `most` of
/// its connections were served. Each listener is served by a worker in a thread of its own, one connection after the other,
/// and the workers take turns at the one catalogue. A load is stored within its turn, before it is answered.
///
/// The condition is that there is a listener, and that there are at most 64. It waits. After want of memory the catalogue is
/// gone; nothing was served then.
pub fn keep_all<R: Threads + Wait + Sync, L: Listen + Send + Drop, D: Disk + Send + Drop>(
    rt: &R,
    alloc: Global,
    base: &Text,
    nets: Seq<L>,
    kept: Kept<D>,
    most: u64,
) -> Result<KeptServed<L, D>, AllocError>
where
    L::In: Send,
    L::Out: Send,
    requires { (1 ≤ length nets) × (length nets ≤ 64) }
    ensures { IfOk result (λ served. IsKeptServed L.In.left L.In.ended L.In.faults L.Out.written L.Out.faults (kept_api D.faults base.now) L.left L.handed_back L.faults most kept.catalogue.entries nets served.nets served.listen_failed served.kept.catalogue.entries) }
{
    let nets = nets.into_vec();
    let count = nets.len();
    let keepers_room = Vec::with_capacity(alloc, count)?;
    let cards_room = Vec::with_capacity(alloc, count)?;
    let nets_room = Vec::with_capacity(alloc, count)?;
    let Ok((desk, cards)) = make(alloc, kept, count as u32) else {
        return Err(AllocError);
    };
    let keepers = employ(&desk, cards.into_vec(), nets, keepers_room);
    let (cards, nets, listen_failed) = serve_and_leave(
        rt, alloc, base, keepers, cards_room, nets_room, most,
    );
    Ok(KeptServed {
        kept: close(desk, cards),
        nets,
        listen_failed,
    })
}
