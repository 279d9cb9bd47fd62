//! The queue of notices, and how its cards are made and taken back.
ghost use Rattle.std.specs.Prelude.{◌≡◌, ◌+◌, ◌-◌, ◌<◌, ◌≤◌, ◌++◌, [], vec_len, vec_capacity, All, IfOk, IfSome};
ghost use Rattle.std.specs.List.{sum_by};
ghost use Rattle.crossbeam_queue.specs.Passes.{view, IsPassOf};
ghost use Rattle.sc_notice.specs.Balance.{hand};
ghost use Rattle.sc_notice.specs.Callers.{all_calls, told_in, heard_in, AreAll, AreNew, Closes};
ghost use Rattle.sc_notice.specs.Cards.{queue_of, with_cards};

use crate::card::NoticeCard;
use crate::notice::Notice;
use crate::protocol::{Balance, Deals, Hand, Tells};
use crate::record::Record;
use crossbeam_queue::{Pass, RuledArrayQueue};
use sc_base::Seq;
use std::alloc::{AllocError, Global};
use std::sync::Wait;

/// A bounded queue of notices. Threads share it by reference, each with a pass of its own.
#[derive(Drop)]
pub struct Notices {
    pub(crate) queue: RuledArrayQueue<Notice, Hand, Balance>,
    pub(crate) record: Record,
}

/// Deals so many further cards, each with one share; the first keeps the rest.
fn deal(
    notices: &Notices,
    mut first: NoticeCard,
    more: u32,
    mut cards: Vec<NoticeCard>,
) -> Vec<NoticeCard>
    requires first { first ≡ record { of = queue_of notices.now; shares = 1_024; calls = [] } }
    requires few { more ≤ 63 }
    requires room { (vec_len cards ≡ 0) × (more < vec_capacity cards) }
    ensures { AreNew (queue_of notices.now) (more + 1) result.items }
{
    for _ in 0..more {
        cards.push_reserved(first.another(notices));
    }
    cards.push_reserved(first);
    cards
}

/// A queue with room for 1 to 4,096 notices, and 1 to 64 cards. The cards have made no call, and together they have all shares
/// of the queue, so a single one has them all.
pub fn make_notices(
    alloc: Global,
    room: u32,
    passes: u32,
) -> Result<(Notices, Seq<NoticeCard>), AllocError>
    requires room { (1 ≤ room) × (room ≤ 4_096) }
    requires passes { (1 ≤ passes) × (passes ≤ 64) }
    ensures cards { IfOk result (λ made. AreNew (queue_of made.0) passes made.1) }
    ensures room { IfOk result (λ made. (queue_of made.0).room ≡ room) }
{
    let cards = Vec::with_capacity(alloc, passes as usize)?;
    let (queue, seat) = RuledArrayQueue::ruled(alloc, room as usize)?;
    let (record, pen) = Record::new(alloc)?;
    let notices = Notices { queue, record };
    let first = NoticeCard::of(seat, pen, room as usize);
    let cards = deal(&notices, first, passes - 1, cards);
    Ok((notices, Seq::of(cards)))
}

/// The seat of a card that has taken in those of the others.
fn take_back(
    notices: &Notices,
    mut seat: Pass<Notice, Hand>,
    cards: Vec<NoticeCard>,
) -> Pass<Notice, Hand>
    requires seat { IsPassOf notices.now.queue seat × (0 < (view seat).shares) }
    requires of { All (λ card. card.of ≡ queue_of notices.now) cards.items }
    ensures of { IsPassOf notices.now.queue result }
    ensures view { view result ≡ with_cards (view seat) cards.items }
{
    for card in cards {
        let other = card.into_seat();
        notices.queue.absorb::<Deals>(&mut seat, other);
    }
    seat
}

/// Takes the queue back with all its cards, in any order, and answers how many notices were told and not heard. None was heard
/// more often than it was told. It needs no memory.
pub fn close_notices<R: Wait>(rt: &R, notices: Notices, cards: Seq<NoticeCard>) -> u64
    requires { AreAll (queue_of notices) cards }
    ensures { Closes cards result }
{
    let mut cards = cards.into_vec();
    match cards.pop() {
        Some(card) => {
            let mut seat = take_back(&notices, card.into_seat(), cards);
            notices.queue.len_as::<Tells, R>(rt, &mut seat) as u64
        }
        // The cards have all shares, so there is one.
        None => unreachable!(),
    }
}
