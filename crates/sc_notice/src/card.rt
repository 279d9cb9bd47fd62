//! A card, and what it tells and hears at its queue.
ghost use Rattle.std.specs.Prelude.{◌≡◌, ◌-◌, ◌<◌, [], IfSome, None};
ghost use Rattle.crossbeam_queue.specs.Passes.{view};
ghost use Rattle.sc_notice.specs.Balance.{hand};
ghost use Rattle.sc_notice.specs.Callers.{told_in, heard_in, tells, hears, AreWaiting, Calls, HasAllShares};
ghost use Rattle.sc_notice.specs.Cards.{caller_of, queue_of, IsCalling};

use crate::notice::Notice;
use crate::notices::Notices;
use crate::protocol::{Deals, Hand, Hears, Tells};
use crate::record::Pen;
use crossbeam_queue::Pass;
use std::marker::Model;
use std::snapshot::Snapshot;
use std::sync::Wait;

/// A pass that isn't bound to its queue. Contracts see it as a `Caller`.
#[derive(Drop)]
pub struct NoticeCard {
    seat: Pass<Notice, Hand>,
    pen: Pen,
    room: usize,
}

impl Model for NoticeCard {
    ghost use Rattle.sc_notice.specs.Callers.{Caller};
    ghost use Rattle.sc_notice.specs.Cards.{caller_of, IsCalling};

    ghost Value = { Caller };

    ghost view = { λ card. caller_of card.seat card.pen card.room };

    ghost invariant = { λ card. IsCalling card.seat card.pen };
}

impl NoticeCard {
    /// The card of a seat at the queue and a pen.
    pub(crate) fn of(seat: Pass<Notice, Hand>, pen: Pen, room: usize) -> NoticeCard
        requires { IsCalling seat pen }
        ensures { result ≡ caller_of seat pen room }
    {
        NoticeCard { seat, pen, room }
    }

    /// Its seat at the queue.
    pub(crate) fn into_seat(self) -> Pass<Notice, Hand>
        ensures of { (result.table_id ≡ self.of.queue) × (result.me.1 ≡ []) }
        ensures view { view result ≡ hand self.shares (told_in self.calls) (heard_in self.calls) }
        ensures some { 0 < self.shares }
    {
        let NoticeCard {
            seat,
            pen: _,
            room: _,
        } = self;
        seat
    }

    /// A further card of the queue, with one share.
    pub(crate) fn another(&mut self, notices: &Notices) -> NoticeCard
        requires of { self.old.of ≡ queue_of notices.now }
        requires more { 1 < self.old.shares }
        ensures old { self.new ≡ record { of = self.old.of; shares = self.old.shares - 1; calls = self.old.calls } }
        ensures new { result ≡ record { of = self.old.of; shares = 1; calls = [] } }
    {
        let seat = notices.queue.another::<Deals>(&mut self.seat);
        let pen = notices.record.another(&mut self.pen);
        NoticeCard {
            seat,
            pen,
            room: self.room,
        }
    }

    /// Tells a notice, or hands it back where the queue was full.
    pub(crate) fn tell<R: Wait>(
        &mut self,
        rt: &R,
        notices: &Notices,
        notice: Notice,
    ) -> Option<Notice>
        requires { self.old.of ≡ queue_of notices.now }
        ensures call { Calls (tells notice result) self.old self.new }
        ensures back { IfSome result (λ back. back ≡ notice) }
        ensures full { HasAllShares self.old → IfSome result (λ _. AreWaiting self.old.calls self.old.of.room) }
    {
        let said = Snapshot::of(&notice);
        match notices
            .queue
            .push_as::<Tells, R>(rt, &mut self.seat, notice)
        {
            Ok(()) => {
                notices.record.told(&mut self.pen, &said);
                None
            }
            Err(back) => {
                notices.record.handed_back(&mut self.pen, &said);
                Some(back)
            }
        }
    }

    /// Hears the oldest notice; none where the queue was empty.
    pub(crate) fn hear<R: Wait>(&mut self, rt: &R, notices: &Notices) -> Option<Notice>
        requires { self.old.of ≡ queue_of notices.now }
        ensures call { Calls (hears result) self.old self.new }
        ensures empty { HasAllShares self.old → result ≡ None → AreWaiting self.old.calls 0 }
    {
        match notices.queue.pop_as::<Hears, R>(rt, &mut self.seat) {
            Some(notice) => {
                notices.record.heard(&mut self.pen, &Snapshot::of(&notice));
                Some(notice)
            }
            None => {
                notices.record.heard_none(&mut self.pen);
                None
            }
        }
    }
}
