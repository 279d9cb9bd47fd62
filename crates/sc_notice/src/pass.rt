//! A card that is bound to its queue.
ghost use Rattle.std.specs.Prelude.{◌≡◌, IfSome, None};
ghost use Rattle.sc_notice.specs.Callers.{tells, hears, AreWaiting, Calls, HasAllShares};
ghost use Rattle.sc_notice.specs.Cards.{queue_of};

use crate::card::NoticeCard;
use crate::notice::Notice;
use crate::notices::Notices;
use std::marker::Model;
use std::sync::Wait;

/// Who tells and hears notices. Contracts see what they see of its card: the queue, its shares, and the list of its calls with
/// their answers.
#[derive(Drop)]
pub struct NoticePass<'n> {
    notices: &'n Notices,
    card: NoticeCard,
}

impl<'n> Model for NoticePass<'n> {
    ghost use Rattle.std.specs.Prelude.{◌≡◌};
    ghost use Rattle.sc_notice.specs.Callers.{Caller};
    ghost use Rattle.sc_notice.specs.Cards.{queue_of};

    ghost Value = { Caller };

    ghost view = { λ pass. pass.card };

    ghost invariant = { λ pass. pass.card.of ≡ queue_of pass.notices.now };
}

impl NoticeCard {
    ghost use Rattle.std.specs.Prelude.{◌≡◌};
    ghost use Rattle.sc_notice.specs.Cards.{queue_of};

    /// Binds the card to its queue.
    pub fn bind<'n>(self, notices: &'n Notices) -> NoticePass<'n>
        requires { self.of ≡ queue_of notices.now }
        ensures { result ≡ self }
    {
        NoticePass {
            notices,
            card: self,
        }
    }
}

impl<'n> NoticePass<'n> {
    ghost use Rattle.std.specs.Prelude.{◌≡◌};

    /// The card, unbound.
    pub fn unbind(self) -> NoticeCard
        ensures { result ≡ self.entry }
    {
        let NoticePass { notices: _, card } = self;
        card
    }
}

/// Tells a notice. It is handed back only where the queue was full at one moment of the call; where this pass has all shares,
/// only where its own calls leave as many notices as the queue has room for.
pub fn tell<'n, R: Wait>(rt: &R, pass: &mut NoticePass<'n>, notice: Notice) -> Option<Notice>
    ensures call { Calls (tells notice result) pass.old pass.new }
    ensures back { IfSome result (λ back. back ≡ notice) }
    ensures full { HasAllShares pass.old → IfSome result (λ _. AreWaiting pass.old.calls pass.old.of.room) }
{
    pass.card.tell(rt, pass.notices, notice)
}

/// Hears the oldest notice. There is none only where the queue was empty at one moment of the call; where this pass has all
/// shares, only where its own calls leave no notice.
pub fn hear<'n, R: Wait>(rt: &R, pass: &mut NoticePass<'n>) -> Option<Notice>
    ensures call { Calls (hears result) pass.old pass.new }
    ensures empty { HasAllShares pass.old → result ≡ None → AreWaiting pass.old.calls 0 }
{
    pass.card.hear(rt, pass.notices)
}
