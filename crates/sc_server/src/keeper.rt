//! Who serves the connections of one listener over a kept catalogue, in a thread of its own.
ghost use Rattle.std.specs.Prelude.{◌≡◌, ◌≤◌, List, vec_len, vec_capacity, false};
ghost use Rattle.sc_catalog.specs.declared.entry.Entry.{Entry};
ghost use Rattle.sc_turn.specs.Passes.{desk_id, AreNew, IsOutside};
ghost use Rattle.sc_visit.specs.Visits.{visitor_of};
ghost use Rattle.sc_keep.specs.Turns.{kept_api};
ghost use Rattle.sc_server.specs.Seats.{IsCardFor};
ghost use Rattle.sc_server.specs.Keepers.{AreDismissed, AreEmployed, HasKept};

use crate::listening::serve_listener;
use sc_base::{Seq, Text};
use sc_keep::{Card, Desk, Disk, Kept, KeptPass, Pass};
use sc_outside::Listen;
use std::alloc::Global;
use std::sync::Wait;

/// A listener and a pass at the desk, and whether the listener failed.
#[derive(Drop)]
pub(crate) struct Keeper<'d, L, D: Disk> {
    net: L,
    pass: KeptPass<'d, D>,
    failed: bool,
}

impl<'d, L: Listen, D: Disk> Keeper<'d, L, D> {
    /// A worker that has served nothing.
    fn new(net: L, pass: Pass<'d, Kept<D>>) -> Keeper<'d, L, D>
        requires { IsOutside pass }
        ensures { result ≡ record { net = net; pass = visitor_of pass.entry; failed = false } }
    {
        Keeper {
            net,
            pass: KeptPass::of(pass),
            failed: false,
        }
    }

    /// Serves the connections of its listener, at most so many.
    pub fn work<R: Wait>(&mut self, rt: &R, alloc: Global, base: &Text, most: u64)
        ensures { HasKept L.In.left L.In.ended L.In.faults L.Out.written L.Out.faults (kept_api D.faults base.now) L.left L.handed_back L.faults most self.old self.new }
    {
        self.failed = serve_listener(rt, alloc, base, &mut self.pass, &mut self.net, most);
    }

    /// The card of its pass, its listener, and whether that failed.
    fn into_parts(self) -> (Card<Kept<D>>, L, bool)
        ensures card { IsCardFor self.entry.pass result.0 }
        ensures net { result.1 ≡ self.entry.net }
        ensures failed { result.2 ≡ self.entry.failed }
    {
        let Keeper { net, pass, failed } = self;
        (pass.into_pass().unbind(), net, failed)
    }
}

/// Gives each listener a worker with a pass of the desk, in their order.
pub(crate) fn employ<'d, L: Listen + Drop, D: Disk + Drop>(
    desk: &'d Desk<Kept<D>>,
    cards: Vec<Card<Kept<D>>>,
    nets: Vec<L>,
    mut keepers: Vec<Keeper<'d, L, D>>,
) -> Vec<Keeper<'d, L, D>>
    requires cards { (begun : List Entry) × AreNew (desk_id desk.now) begun (vec_len nets) cards.items }
    requires room { (vec_len keepers ≡ 0) × (vec_len nets ≤ vec_capacity keepers) }
    ensures many { vec_len result ≡ vec_len nets }
    ensures employed { (begun : List Entry) → AreNew (desk_id desk.entry.now) begun (vec_len nets) cards.items → AreEmployed (desk_id desk.entry.now) begun nets.items result.items }
{
    let mut cards = cards.into_iter();
    for net in nets {
        match cards.next() {
            Some(card) => keepers.push_reserved(Keeper::new(net, card.bind(desk))),
            None => unreachable!(),
        }
    }
    keepers
}

/// The cards and the listeners of workers, in their order, and whether a listener failed.
pub(crate) fn dismiss<'d, L: Listen + Drop, D: Disk + Drop>(
    keepers: Vec<Keeper<'d, L, D>>,
    mut cards: Vec<Card<Kept<D>>>,
    mut nets: Vec<L>,
) -> (Seq<Card<Kept<D>>>, Seq<L>, bool)
    requires cards { (vec_len cards ≡ 0) × (vec_len keepers ≤ vec_capacity cards) }
    requires nets { (vec_len nets ≡ 0) × (vec_len keepers ≤ vec_capacity nets) }
    ensures { AreDismissed keepers.entry.items result.0 result.1 result.2 }
{
    let mut listen_failed = false;
    for keeper in keepers {
        let (card, net, failed) = keeper.into_parts();
        cards.push_reserved(card);
        nets.push_reserved(net);
        listen_failed = listen_failed || failed;
    }
    (Seq::of(cards), Seq::of(nets), listen_failed)
}
