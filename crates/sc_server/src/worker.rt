//! Who serves the connections of one listener, in a thread of its own.
ghost use Rattle.std.specs.Prelude.{◌≡◌, false};
ghost use Rattle.sc_serve.specs.Service.{api};
ghost use Rattle.sc_server.specs.Workers.{IsWorked, AreParts};

use crate::seat::Seat;
use sc_base::Text;
use sc_outside::Listen;
use std::alloc::Global;
use std::sync::Wait;

/// A listener and a seat at the desk, whether the listener failed, and whether all its connections have ended.
#[derive(Drop)]
pub(crate) struct Worker<'d, 'n, L> {
    net: L,
    seat: Seat<'d, 'n>,
    failed: bool,
    ended: bool,
}

impl<'d, 'n, L: Listen> Worker<'d, 'n, L> {
    /// A worker that has served nothing.
    pub fn new(net: L, seat: Seat<'d, 'n>) -> Worker<'d, 'n, L>
        ensures { result ≡ record { net = net; seat = seat.entry; failed = false; ended = false } }
    {
        Worker {
            net,
            seat,
            failed: false,
            ended: false,
        }
    }

    /// Serves the connections of its listener, at most so many.
    pub fn work<R: Wait>(&mut self, rt: &R, alloc: Global, base: &Text, most: u64)
        ensures { IsWorked L.In.left L.In.ended L.In.faults L.Out.written L.Out.faults (api base.now) L.left L.handed_back L.faults most self.old self.new }
    {
        self.failed = self.seat.serve(rt, alloc, base, &mut self.net, most);
        self.ended = true;
    }

    /// Its seat, its listener, and whether that failed.
    pub fn into_parts(self) -> (Seat<'d, 'n>, L, bool)
        ensures { AreParts self.entry result.0 result.1 result.2 }
    {
        let Worker {
            net,
            seat,
            failed,
            ended: _,
        } = self;
        (seat, net, failed)
    }
}
