//! The desk, its cards and passes, and a turn.
ghost use Rattle.std.specs.Prelude.{◌≡◌, ◌≢◌, ◌+◌, ◌^◌, ◌<◌, ◌≤◌, [], ◌∷◌, ◌++◌, length, Some, None};
ghost use Rattle.sc_turn.specs.declared.view.Role.TheVariants.{Idle, Called};
ghost use Rattle.sc_turn.specs.History.{Knows, MayFollow};

use crate::booked::Booked;
use crate::plays::{PassOn, Raise};
use crate::rule::{InTurns, Origin};
use crate::view::View;
use crate::waiting::{LENGTH, SERVING, wait_called, wake_line};
use atomic_table::{Seat, Table};
use std::alloc::Global;
use std::snapshot::Snapshot;
use std::sync::Wait;

/// The lock round one value. Threads share it by reference, each with a pass of its own.
#[derive(Drop)]
pub struct Desk<V: Booked> {
    pub(crate) table: Table<Option<V>, View<V::Entry>, Origin<V>, InTurns, Global>,
    ghost sized: { (table.shared.table_id.words ≡ 3) × (table.shared.table_id.slots ≡ 1) },
}

/// A pass that isn't bound to its desk. Contracts see the desk that it was made with, its number, its start, what it has seen, and its visits.
#[derive(Drop)]
pub struct Card<V: Booked> {
    pub(crate) seat: Seat<Option<V>, View<V::Entry>>,
    pub(crate) number: u32,
    pub(crate) seen: u64,
    ghost idle: { (seat.me.1 ≡ []) × (seat.me.0.role ≡ Idle) },
    ghost numbered: { number ≡ seat.me.0.number },
    ghost counted: { seen ≡ length seat.me.0.seen },
    ghost begun: { seat.me.0.start ≤ length seat.me.0.seen },
}

/// Who takes turns at a desk. Contracts see what they see of a card, and whether the pass is in a turn.
#[derive(Drop)]
pub struct Pass<'d, V: Booked> {
    desk: &'d Desk<V>,
    seat: Seat<Option<V>, View<V::Entry>>,
    number: u32,
    seen: u64,
    ghost of: { seat.table_id ≡ desk.now.table.shared.table_id },
    ghost numbered: { number ≡ seat.me.0.number },
    ghost counted: { seen ≡ length seat.me.0.seen },
    ghost begun: { seat.me.0.start ≤ length seat.me.0.seen },
}

/// The value, for as long as a turn lasts. It must be spent, and `Pass::leave` alone spends it.
pub struct Turn<V: Booked> {
    pub value: V,
    seat: Snapshot<Seat<Option<V>, View<V::Entry>>>,
}

impl<V: Booked> Card<V> {
    ghost use Rattle.sc_turn.specs.Passes.{card_desk, card_number, card_start, card_seen, card_visits, desk_id, pass_desk, pass_number, pass_start, pass_seen, pass_visits, IsOutside};

    /// Binds the card to its desk. It makes no atomic step.
    pub fn bind<'d>(self, desk: &'d Desk<V>) -> Pass<'d, V>
        requires { card_desk self ≡ desk_id desk.now }
        ensures desk { pass_desk result ≡ card_desk self }
        ensures number { pass_number result ≡ card_number self }
        ensures start { pass_start result ≡ card_start self }
        ensures seen { pass_seen result ≡ card_seen self }
        ensures visits { pass_visits result ≡ card_visits self }
        ensures outside { IsOutside result }
    {
        let Card { seat, number, seen } = self;
        Pass {
            desk,
            seat,
            number,
            seen,
        }
    }
}

impl<'d, V: Booked> Pass<'d, V> {
    ghost use Rattle.sc_turn.specs.Passes.{card_desk, card_number, card_start, card_seen, card_visits, desk_id, pass_desk, pass_number, pass_start, pass_seen, pass_visits, IsOutside, IsIn};

    /// Gives the card back. It makes no atomic step.
    pub fn unbind(self) -> Card<V>
        requires { IsOutside self }
        ensures desk { card_desk result ≡ pass_desk self.entry }
        ensures number { card_number result ≡ pass_number self.entry }
        ensures start { card_start result ≡ pass_start self.entry }
        ensures seen { card_seen result ≡ pass_seen self.entry }
        ensures visits { card_visits result ≡ pass_visits self.entry }
    {
        let Pass {
            desk: _,
            seat,
            number,
            seen,
        } = self;
        Card { seat, number, seen }
    }

    /// The number of the pass, from 1.
    pub fn number(&self) -> u32
        ensures { result ≡ pass_number self.now }
    {
        self.number
    }

    /// The length of the history that this pass knows.
    pub fn seen(&self) -> u64
        ensures { result ≡ length (pass_seen self.now) }
    {
        self.seen
    }

    /// Draws a ticket, waits until it is served, and takes the value. The history found goes on from what the pass had seen, with no entry of its own in between.
    /// A pass that draws ticket 2^63 or a later one waits for ever.
    pub fn enter<R: Wait>(&mut self, rt: &R) -> Turn<V>
        requires { IsOutside self.old }
        ensures kept { (pass_desk self.new ≡ pass_desk self.old) × (pass_number self.new ≡ pass_number self.old) × (pass_start self.new ≡ pass_start self.old) × (pass_visits self.new ≡ pass_visits self.old) }
        ensures found { Knows V.by (pass_number self.old) (pass_seen self.old) (V.history result.value) }
        ensures seen { pass_seen self.new ≡ V.history result.value }
        ensures within { IsIn self.new result }
    {
        let words = &self.desk.table.shared;
        wait_called(rt, words, &mut self.seat);
        let value = words.exchange(&mut self.seat, 0, None).unwrap();
        self.seen = value.booked();
        Turn {
            value,
            seat: Snapshot::of(&self.seat),
        }
    }

    /// Gives the value back, and serves the next ticket. The value's history is as it was found, or has one entry more with this pass's number.
    pub fn leave(&mut self, turn: Turn<V>)
        requires within { IsIn self.old turn }
        requires follows { MayFollow V.by (pass_number self.old) (pass_seen self.old) (V.history turn.value) }
        ensures kept { (pass_desk self.new ≡ pass_desk self.old) × (pass_number self.new ≡ pass_number self.old) × (pass_start self.new ≡ pass_start self.old) }
        ensures seen { pass_seen self.new ≡ V.history turn.value }
        ensures visits { pass_visits self.new ≡ pass_visits self.old ++ length (V.history turn.value) ∷ [] }
        ensures outside { IsOutside self.new }
    {
        let Turn { value, seat: _ } = turn;
        let seen = value.booked();
        let words = &self.desk.table.shared;
        let nothing = words.exchange(&mut self.seat, 0, Some(value));
        match nothing {
            None => {}
            Some(_) => unreachable!(),
        }
        words.fetch_add::<Raise>(&mut self.seat, LENGTH, seen - self.seen);
        let passed = words.fetch_add::<PassOn>(&mut self.seat, SERVING, 1);
        wake_line(words, passed);
        self.seen = seen;
    }
}
