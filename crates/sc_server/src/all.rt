//! All workers at once, each in a thread of its own.
ghost use Rattle.std.specs.Prelude.{◌≡◌, ℕ, ◌+◌, ◌≤◌, length, vec_len, IfOk};
ghost use Rattle.sc_serve.specs.Service.{api};
ghost use Rattle.sc_server.specs.Seats.{AreTightened, IsStopping};
ghost use Rattle.sc_server.specs.Workers.{AreWorked, HasRun, HasServed, HaveEnded, HaveRoom, HaveWorked, IsServed, room, turns_at_most};

use crate::idle::IdleGate;
use crate::seat::{Seat, tell_stops};
use crate::staff::{Left, Rooms, Serving, Staff, dismiss, employ, seat_all, unseat_all};
use crate::worker::Worker;
use sc_base::{Seq, Text};
use sc_desk::{Catalogue, close, make};
use sc_notice::{close_notices, make_notices};
use sc_outside::{Listen, OpenGate};
use std::alloc::{AllocError, Global};
use std::sync::Wait;
use std::thread;
use std::thread::Threads;

/// For so many notices the queue has room.
const ROOM: u32 = 1_024;

/// What a server leaves at its end.
#[derive(Drop)]
pub struct Served<L> {
    /// The catalogue, with the one history of all loads.
    pub catalogue: Catalogue,
    /// The listeners, in their order.
    pub nets: Seq<L>,
    /// Whether a listener failed.
    pub listen_failed: bool,
    /// How many of the notices that were told weren't heard. The bounds of their parts may be looser than they need be.
    pub unheard: u64,
}

/// Serves all listeners at the same time, each by its worker in a thread of its own; where a thread can't be started the
/// caller does its work.
fn serve_listeners<'d, 'n, R: Threads + Wait + Sync, L: Listen + Send>(
    rt: &R,
    alloc: Global,
    base: &Text,
    workers: &mut Vec<Worker<'d, 'n, L>>,
    most: u64,
)
where
    L::In: Send,
    L::Out: Send,
    ensures { AreWorked L.In.left L.In.ended L.In.faults L.Out.written L.Out.faults (api base.now) L.left L.handed_back L.faults most workers.old.items workers.new.items }
{
    let threads = workers.len().max(1);
    thread::for_each_mut(
        rt,
        workers.as_mut_slice(),
        threads,
        &|_, worker| worker.work(rt, alloc, base, most),
    );
}

/// Tells so many tighteners to stop, once all workers have ended. Before that it tightens what the queue holds, so that there
/// is room for it to be told, even where no tightener has been started.
fn stop_tighteners<'d, 'n, R: Wait, L>(
    rt: &R,
    alloc: Global,
    workers: &Vec<Worker<'d, 'n, L>>,
    stopper: &mut Seat<'d, 'n>,
    count: usize,
)
    requires { HaveEnded workers.now.items }
    ensures { IsStopping room count stopper.old stopper.new }
{
    stopper.tighten(rt, alloc, u64::from(ROOM), &mut OpenGate);
    tell_stops(rt, &mut stopper.notices, count);
}

/// Serves all listeners, and then tells so many tighteners to stop.
fn serve_and_stop<'d, 'n, R: Threads + Wait + Sync, L: Listen + Send>(
    rt: &R,
    alloc: Global,
    base: &Text,
    serving: Serving<'d, 'n, L>,
    count: usize,
    most: u64,
) -> Serving<'d, 'n, L>
where
    L::In: Send,
    L::Out: Send,
    ensures { HasServed L.In.left L.In.ended L.In.faults L.Out.written L.Out.faults (api base.now) L.left L.handed_back L.faults most count serving.entry result }
{
    let Serving {
        mut workers,
        mut stopper,
    } = serving;
    serve_listeners(rt, alloc, base, &mut workers, most);
    stop_tighteners(rt, alloc, &workers, &mut stopper, count);
    Serving { workers, stopper }
}

/// Tightens at all seats at the same time, each in a thread of its own, until each has heard `Stop`. A seat for which no thread
/// can be started begins when another has ended.
fn tighten_all<'d, 'n, R: Threads + Wait + Sync>(
    rt: &R,
    alloc: Global,
    mut seats: Vec<Seat<'d, 'n>>,
) -> Vec<Seat<'d, 'n>>
    ensures { AreTightened turns_at_most seats.entry.items result.items }
{
    let threads = seats.len().max(1);
    thread::for_each_mut(
        rt,
        seats.as_mut_slice(),
        threads,
        &|_, seat| seat.tighten(rt, alloc, u64::MAX, &mut IdleGate::new(rt)),
    );
    seats
}

/// Has all work at the same time. Where the tighteners' first thread can't be started they begin once the listeners were
/// served and `Stop` was told to each of them; so nobody waits for one who hasn't begun.
fn have_worked<'d, 'n, R: Threads + Wait + Sync, L: Listen + Send + Drop>(
    rt: &R,
    alloc: Global,
    base: &Text,
    staff: Staff<'d, 'n, L>,
    most: u64,
) -> Staff<'d, 'n, L>
where
    L::In: Send,
    L::Out: Send,
    ensures { HaveWorked L.In.left L.In.ended L.In.faults L.Out.written L.Out.faults (api base.now) L.left L.handed_back L.faults most staff.entry result }
{
    let Staff {
        serving,
        tighteners,
    } = staff;
    let count = tighteners.len();
    let (tighteners, serving) = thread::join(
        rt,
        move || tighten_all(rt, alloc, tighteners),
        move || serve_and_stop(rt, alloc, base, serving, count, most),
    );
    Staff {
        serving,
        tighteners,
    }
}

/// All work at their seats, until the listeners have been served.
fn run_all<'d, 'n, R: Threads + Wait + Sync, L: Listen + Send + Drop>(
    rt: &R,
    alloc: Global,
    base: &Text,
    seats: Vec<Seat<'d, 'n>>,
    nets: Vec<L>,
    count: usize,
    rooms: Rooms<'d, 'n, L>,
    most: u64,
) -> Left<L>
where
    L::In: Send,
    L::Out: Send,
    requires seats { vec_len seats ≡ vec_len nets + count + 1 }
    requires rooms { HaveRoom (vec_len nets) count rooms }
    ensures { HasRun L.In.left L.In.ended L.In.faults L.Out.written L.Out.faults (api base.now) L.left L.handed_back L.faults most count seats.entry.items nets.items result.nets result.listen_failed result.cards result.notice_cards }
{
    let Rooms {
        workers,
        tighteners,
        nets: nets_room,
        seats: seats_room,
        cards: cards_room,
        notice_cards: notices_room,
    } = rooms;
    let staff = employ(nets, seats, count, workers, tighteners);
    let staff = have_worked(rt, alloc, base, staff, most);
    let (seats, nets, listen_failed) = dismiss(staff, seats_room, nets_room);
    let (cards, notice_cards) = unseat_all(seats, cards_room, notices_room);
    Left {
        cards,
        notice_cards,
        nets,
        listen_failed,
    }
}

/// Serves the connections of all listeners over one new catalogue, until each listener has none left or has failed, or
/// `most` of its connections were served. Each listener is served by a worker in a thread of its own, one connection after
/// the other, and the workers take turns at the one catalogue.
///
/// Beside them so many tighteners, each in a thread of its own, tighten the bounds of the parts that the connections' loads
/// change; they stop when all workers have ended. The condition is that there is a listener, and that listeners and tighteners
/// are at most 63. It waits.
pub fn serve_all<R: Threads + Wait + Sync, L: Listen + Send + Drop>(
    rt: &R,
    alloc: Global,
    base: &Text,
    nets: Seq<L>,
    tighteners: u32,
    most: u64,
) -> Result<Served<L>, AllocError>
where
    L::In: Send,
    L::Out: Send,
    requires { (1 ≤ length nets) × (length nets + tighteners ≤ 63) }
    ensures { IfOk result (λ served. IsServed L.In.left L.In.ended L.In.faults L.Out.written L.Out.faults (api base.now) L.left L.handed_back L.faults most tighteners nets served.nets served.listen_failed served.unheard served.catalogue.entries) }
{
    let nets = nets.into_vec();
    let count = tighteners as usize;
    let passes = nets.len() + count + 1;
    let rooms = Rooms::new(alloc, nets.len(), count)?;
    let seats_room = Vec::with_capacity(alloc, passes)?;
    let catalogue = Catalogue::new(alloc)?;
    let made = make_notices(alloc, ROOM, passes as u32)?;
    let (notices, notice_cards) = made;
    let Ok((desk, cards)) = make(alloc, catalogue, passes as u32) else {
        return Err(AllocError);
    };
    let seats = seat_all(
        &desk,
        cards.into_vec(),
        &notices,
        notice_cards.into_vec(),
        seats_room,
    );
    let left = run_all(rt, alloc, base, seats, nets, count, rooms, most);
    Ok(Served {
        unheard: close_notices(rt, notices, left.notice_cards),
        catalogue: close(desk, left.cards),
        nets: left.nets,
        listen_failed: left.listen_failed,
    })
}
