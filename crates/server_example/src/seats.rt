//! Desks over an empty catalogue, queues of notices, and the passes of both.
ghost use Rattle.std.specs.Prelude.{◌≡◌, ◌≤◌, All, IfOk};
ghost use Rattle.std.specs.Vec.Iter.{into_iter_items};
ghost use Rattle.sc_turn.specs.Passes.{card_desk, desk_id};
ghost use Rattle.sc_notice.specs.Cards.{queue_of};

use sc_desk::{Card, Catalogue, Desk, DeskPass, make};
use sc_notice::{NoticeCard, NoticePass, Notices, make_notices};
use std::alloc::Global;
use std::vec::IntoIter;

/// A desk with so many cards.
pub fn open_desk(
    alloc: Global,
    passes: u32,
) -> anyhow::Result<(Desk<Catalogue>, IntoIter<Card<Catalogue>>)>
    requires { (1 ≤ passes) × (passes ≤ 64) }
    ensures { IfOk result (λ made. All (λ card. card_desk card ≡ desk_id made.0) (into_iter_items made.1)) }
{
    match make(alloc, Catalogue::new(alloc)?, passes) {
        Ok((desk, cards)) => Ok((desk, cards.into_vec().into_iter())),
        Err(_) => anyhow::bail!("no memory"),
    }
}

/// The next pass of a desk.
pub fn next_pass<'d>(
    desk: &'d Desk<Catalogue>,
    cards: &mut IntoIter<Card<Catalogue>>,
) -> anyhow::Result<DeskPass<'d>>
    requires { All (λ card. card_desk card ≡ desk_id desk.now) (into_iter_items cards.old) }
    ensures { All (λ card. card_desk card ≡ desk_id desk.entry.now) (into_iter_items cards.new) }
{
    match cards.next() {
        Some(card) => Ok(DeskPass::of(card.bind(desk))),
        None => anyhow::bail!("there is no card left"),
    }
}

/// A queue with room for so many notices, with so many cards.
pub fn open_notices(
    alloc: Global,
    room: u32,
    passes: u32,
) -> anyhow::Result<(Notices, IntoIter<NoticeCard>)>
    requires room { (1 ≤ room) × (room ≤ 4_096) }
    requires passes { (1 ≤ passes) × (passes ≤ 64) }
    ensures { IfOk result (λ made. All (λ card. card.of ≡ queue_of made.0) (into_iter_items made.1)) }
{
    let (notices, cards) = make_notices(alloc, room, passes)?;
    Ok((notices, cards.into_vec().into_iter()))
}

/// The next pass of a queue of notices.
pub fn next_notice_pass<'n>(
    notices: &'n Notices,
    cards: &mut IntoIter<NoticeCard>,
) -> anyhow::Result<NoticePass<'n>>
    requires { All (λ card. card.of ≡ queue_of notices.now) (into_iter_items cards.old) }
    ensures { All (λ card. card.of ≡ queue_of notices.entry.now) (into_iter_items cards.new) }
{
    match cards.next() {
        Some(card) => Ok(card.bind(notices)),
        None => anyhow::bail!("there is no card left"),
    }
}
