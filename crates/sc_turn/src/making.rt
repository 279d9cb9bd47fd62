//! How a lock and its cards are made.
ghost use Rattle.std.specs.Prelude.{◌≡◌, ℕ, ◌+◌, ◌-◌, ◌^◌, ◌<◌, ◌≤◌, [], length, IfOk, IfErr, vec_len, vec_capacity};
ghost use Rattle.sc_turn.specs.Views.{maker};
ghost use Rattle.sc_turn.specs.Passes.{desk_id, desk_passes, desk_first, IsNew, AreNew};

use crate::booked::Booked;
use crate::pass::{Card, Desk};
use crate::plays::MakeCard;
use crate::rule::Origin;
use crate::waiting::LockSeat;
use atomic_table::{Refused as NoRoom, Table};
use sc_base::Seq;
use std::alloc::Global;
use std::snapshot::Snapshot;

/// There was no memory for a lock. The value comes back.
#[derive(Drop)]
pub struct Refused<V> {
    pub value: V,
}

// A desk with no cards yet, and the seat that makes them.
fn open<V: Booked>(alloc: Global, value: V, passes: u32) -> Result<(Desk<V>, LockSeat<V>), V>
    requires { passes ≤ 64 }
    ensures ok { IfOk result (λ d. (d.1.table_id ≡ desk_id d.0) × (d.1.me ≡ (maker 0 (V.history value), [])) × (desk_passes d.0 ≡ passes) × (desk_first d.0 ≡ value)) }
    ensures err { IfErr result (λ v. v ≡ value) }
{
    let Ok(mut slots) = Vec::with_capacity(alloc, 1) else {
        return Err(value);
    };
    let origin = Origin {
        passes: u64::from(passes),
        value: Snapshot::of(&value),
    };
    let length = value.booked();
    slots.push_reserved(Some(value));
    match Table::new(alloc, &[0, 0, length], slots, &origin) {
        Ok((table, seat)) => Ok((Desk { table }, seat)),
        Err(NoRoom { mut slots }) => {
            let value = slots.pop().unwrap().unwrap();
            slots.destroy_empty();
            Err(value)
        }
    }
}

fn make_card<V: Booked>(desk: &Desk<V>, seat: &mut LockSeat<V>, number: u32, seen: u64) -> Card<V>
    requires desk { seat.old.table_id ≡ desk_id desk.now }
    requires few { (0 < number) × (number ≤ desk_passes desk.now) }
    requires maker { seat.old.me ≡ (maker (number - 1) (V.history (desk_first desk.now)), []) }
    requires seen { seen ≡ length (V.history (desk_first desk.now)) }
    ensures seat { (seat.new.table_id ≡ seat.old.table_id) × (seat.new.me ≡ (maker number (V.history (desk_first desk.now)), [])) }
    ensures card { IsNew (desk_id desk.now) number (V.history (desk_first desk.now)) result }
{
    let seat = desk.table.shared.split_seat::<MakeCard>(seat);
    Card { seat, number, seen }
}

fn make_cards<V: Booked>(
    desk: &Desk<V>,
    mut seat: LockSeat<V>,
    passes: u32,
    seen: u64,
    mut cards: Vec<Card<V>>,
) -> Vec<Card<V>>
    requires desk { seat.table_id ≡ desk_id desk.now }
    requires few { passes ≡ desk_passes desk.now }
    requires maker { seat.me ≡ (maker 0 (V.history (desk_first desk.now)), []) }
    requires seen { seen ≡ length (V.history (desk_first desk.now)) }
    requires room { (vec_len cards ≡ 0) × (passes ≤ vec_capacity cards) }
    ensures { AreNew (desk_id desk.now) (V.history (desk_first desk.now)) passes result.items }
{
    for i in 0..passes {
        cards.push_reserved(make_card(desk, &mut seat, i + 1, seen));
    }
    cards
}

/// Makes the lock round a value, with 1 to 64 cards, numbered from 1. Each has seen the value's history, whose length is its start.
/// Only want of memory refuses it, and the value comes back then.
pub fn make<V: Booked>(
    alloc: Global,
    value: V,
    passes: u32,
) -> Result<(Desk<V>, Seq<Card<V>>), Refused<V>>
    requires { (1 ≤ passes) × (passes ≤ 64) }
    ensures cards { IfOk result (λ d. AreNew (desk_id d.0) (V.history value) passes d.1) }
    ensures desk { IfOk result (λ d. (desk_passes d.0 ≡ passes) × (desk_first d.0 ≡ value)) }
    ensures err { IfErr result (λ r. r.value ≡ value) }
{
    let Ok(cards) = Vec::with_capacity(alloc, passes as usize) else {
        return Err(Refused { value });
    };
    let seen = value.booked();
    match open(alloc, value, passes) {
        Ok((desk, seat)) => {
            let cards = make_cards(&desk, seat, passes, seen, cards);
            Ok((desk, Seq::of(cards)))
        }
        Err(value) => Err(Refused { value }),
    }
}
