//! The kinds of step, and what each tells the seat that steps. These types stand in contracts alone.
ghost use Rattle.sc_turn.specs.Views.{made_one, new_card, joined, spent};
ghost use Rattle.sc_turn.specs.Steps.{drawn, read, raised, passed_on, opened};

use crate::booked::Booked;
use crate::view::View;
use atomic_table::{Join, Play, Split};

/// Word 0, the next ticket, goes up by 1.
pub(crate) struct Draw;

impl<V, E> Play<Option<V>, View<E>> for Draw {
    ghost then = { drawn };
}

/// Word 1, the ticket that is served, is read. Who finds its own ticket there is called, and has the slot.
pub(crate) struct Read;

impl<V: Booked> Play<Option<V>, View<V::Entry>> for Read {
    ghost then = { read V.history V.by };
}

/// Word 2, the length of the history, goes up by the new entry, or by 0.
pub(crate) struct Raise;

impl<V: Booked> Play<Option<V>, View<V::Entry>> for Raise {
    ghost then = { raised V.history };
}

/// Word 1, the ticket that is served, goes up by 1, and the slot is given back.
pub(crate) struct PassOn;

impl<V, E> Play<Option<V>, View<E>> for PassOn {
    ghost then = { passed_on };
}

/// A new seat, which closes the lock.
pub(crate) struct Open;

impl<V, E> Play<Option<V>, View<E>> for Open {
    ghost then = { opened };
}

/// The first seat makes one card more.
pub(crate) struct MakeCard;

impl<E> Split<View<E>> for MakeCard {
    ghost left = { made_one };

    ghost right = { new_card };
}

/// The closing seat takes a card back.
pub(crate) struct TakeBack;

impl<E> Join<View<E>> for TakeBack {
    ghost both = { joined };

    ghost spent = { spent };
}
