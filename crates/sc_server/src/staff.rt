//! Who works at a desk: how they get their seats, and how they leave them.
ghost use Rattle.std.specs.Prelude.{◌≡◌, ◌+◌, ◌<◌, ◌≤◌, ◌++◌, ◌∷◌, [], length, map, vec_len, vec_capacity, All, IfOk};
ghost use Rattle.sc_turn.specs.Passes.{desk_id, AreNew};
ghost use Rattle.sc_notice.specs.Cards.{queue_of};
ghost use Rattle.sc_server.specs.Seats.{AreSeated, AreCardsOf};
ghost use Rattle.sc_server.specs.Workers.{AreBack, HaveRoom, IsStaffOf, seats_of};

use crate::seat::Seat;
use crate::worker::Worker;
use sc_base::Seq;
use sc_desk::{Card, Catalogue, Desk};
use sc_notice::{NoticeCard, Notices};
use sc_outside::Listen;
use std::alloc::{AllocError, Global};

/// The workers of the listeners, and by whom the tighteners are told to stop once these have ended.
#[derive(Drop)]
pub(crate) struct Serving<'d, 'n, L> {
    pub workers: Vec<Worker<'d, 'n, L>>,
    pub stopper: Seat<'d, 'n>,
}

/// All who work at a desk.
#[derive(Drop)]
pub(crate) struct Staff<'d, 'n, L> {
    pub serving: Serving<'d, 'n, L>,
    pub tighteners: Vec<Seat<'d, 'n>>,
}

/// The memory for all who work at a desk, and for what they leave.
#[derive(Drop)]
pub(crate) struct Rooms<'d, 'n, L> {
    pub workers: Vec<Worker<'d, 'n, L>>,
    pub tighteners: Vec<Seat<'d, 'n>>,
    pub nets: Vec<L>,
    pub seats: Vec<Seat<'d, 'n>>,
    pub cards: Vec<Card<Catalogue>>,
    pub notice_cards: Vec<NoticeCard>,
}

impl<'d, 'n, L: Listen + Drop> Rooms<'d, 'n, L> {
    /// For so many listeners and tighteners.
    pub fn new(
        alloc: Global,
        listeners: usize,
        count: usize,
    ) -> Result<Rooms<'d, 'n, L>, AllocError>
        requires { listeners + count ≤ 63 }
        ensures { IfOk result (HaveRoom listeners count) }
    {
        let all = listeners + count + 1;
        Ok(Rooms {
            workers: Vec::with_capacity(alloc, listeners)?,
            tighteners: Vec::with_capacity(alloc, count)?,
            nets: Vec::with_capacity(alloc, listeners)?,
            seats: Vec::with_capacity(alloc, all)?,
            cards: Vec::with_capacity(alloc, all)?,
            notice_cards: Vec::with_capacity(alloc, all)?,
        })
    }
}

/// What is left when all have left their seats.
#[derive(Drop)]
pub(crate) struct Left<L> {
    pub cards: Seq<Card<Catalogue>>,
    pub notice_cards: Seq<NoticeCard>,
    pub nets: Seq<L>,
    pub listen_failed: bool,
}

/// A seat for each card of the desk, in their order, with a card of the notices.
pub(crate) fn seat_all<'d, 'n>(
    desk: &'d Desk<Catalogue>,
    cards: Vec<Card<Catalogue>>,
    notices: &'n Notices,
    notice_cards: Vec<NoticeCard>,
    mut seats: Vec<Seat<'d, 'n>>,
) -> Vec<Seat<'d, 'n>>
    requires cards { AreNew (desk_id desk.now) [] (vec_len cards) cards.items }
    requires notices { All (λ card. card.of ≡ queue_of notices.now) notice_cards.items }
    requires count { vec_len notice_cards ≡ vec_len cards }
    requires room { (vec_len seats ≡ 0) × (vec_len cards ≤ vec_capacity seats) }
    ensures { AreSeated (desk_id desk.entry.now) notice_cards.items result.items }
{
    let mut notice_cards = notice_cards.into_iter();
    for card in cards {
        match notice_cards.next() {
            Some(notice_card) => {
                let pass = card.bind(desk);
                let hearing = notice_card.bind(notices);
                seats.push_reserved(Seat::new(pass, hearing));
            }
            None => unreachable!(),
        }
    }
    seats
}

/// Gives each listener a worker, in their order, and the seats after these to the tighteners. The last seat is the stopper's.
pub(crate) fn employ<'d, 'n, L: Listen + Drop>(
    nets: Vec<L>,
    seats: Vec<Seat<'d, 'n>>,
    count: usize,
    mut workers: Vec<Worker<'d, 'n, L>>,
    mut tighteners: Vec<Seat<'d, 'n>>,
) -> Staff<'d, 'n, L>
    requires seats { vec_len seats ≡ vec_len nets + count + 1 }
    requires workers { (vec_len workers ≡ 0) × (vec_len nets ≤ vec_capacity workers) }
    requires tighteners { (vec_len tighteners ≡ 0) × (count ≤ vec_capacity tighteners) }
    ensures { IsStaffOf nets.items seats.entry.items count result }
{
    let mut seats = seats.into_iter();
    for net in nets {
        match seats.next() {
            Some(seat) => workers.push_reserved(Worker::new(net, seat)),
            None => unreachable!(),
        }
    }
    for given in 0..count {
        match seats.next() {
            Some(seat) => tighteners.push_reserved(seat),
            None => unreachable!(),
        }
    }
    match seats.next() {
        Some(stopper) => Staff {
            serving: Serving { workers, stopper },
            tighteners,
        },
        None => unreachable!(),
    }
}

/// The seats in their order, the listeners, and whether a listener failed.
pub(crate) fn dismiss<'d, 'n, L: Listen + Drop>(
    staff: Staff<'d, 'n, L>,
    mut seats: Vec<Seat<'d, 'n>>,
    mut nets: Vec<L>,
) -> (Vec<Seat<'d, 'n>>, Seq<L>, bool)
    requires seats { (vec_len seats ≡ 0) × (length (seats_of staff) ≤ vec_capacity seats) }
    requires nets { (vec_len nets ≡ 0) × (vec_len staff.serving.workers ≤ vec_capacity nets) }
    ensures seats { result.0.items ≡ seats_of staff.entry }
    ensures nets { AreBack staff.entry.serving.workers.items result.1 result.2 }
{
    let Staff {
        serving,
        tighteners,
    } = staff;
    let Serving { workers, stopper } = serving;
    let mut failed = false;
    for worker in workers {
        let (seat, net, is_failed) = worker.into_parts();
        seats.push_reserved(seat);
        nets.push_reserved(net);
        failed = failed || is_failed;
    }
    for seat in tighteners {
        seats.push_reserved(seat);
    }
    seats.push_reserved(stopper);
    (seats, Seq::of(nets), failed)
}

/// The cards of all seats, in their order.
pub(crate) fn unseat_all<'d, 'n>(
    seats: Vec<Seat<'d, 'n>>,
    mut cards: Vec<Card<Catalogue>>,
    mut notice_cards: Vec<NoticeCard>,
) -> (Seq<Card<Catalogue>>, Seq<NoticeCard>)
    requires cards { (vec_len cards ≡ 0) × (vec_len seats ≤ vec_capacity cards) }
    requires notices { (vec_len notice_cards ≡ 0) × (vec_len seats ≤ vec_capacity notice_cards) }
    ensures { AreCardsOf seats.entry.items result.0 result.1 }
{
    for seat in seats {
        let (card, notice_card) = seat.into_cards();
        cards.push_reserved(card);
        notice_cards.push_reserved(notice_card);
    }
    (Seq::of(cards), Seq::of(notice_cards))
}
