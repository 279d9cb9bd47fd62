//! How a lock is closed.
ghost use Rattle.std.specs.Prelude.{◌≡◌, ◌<◌, [], map, All};
ghost use Rattle.sc_turn.specs.History.{HasNumbers, Closes};
ghost use Rattle.sc_turn.specs.Views.{closer};
ghost use Rattle.sc_turn.specs.Passes.{card_desk, card_number, desk_id, desk_passes, desk_first, pair_of};

use crate::booked::Booked;
use crate::pass::{Card, Desk};
use crate::plays::{Open, TakeBack};
use crate::waiting::LockSeat;
use sc_base::Seq;

fn take_back<V: Booked>(desk: &Desk<V>, mut seat: LockSeat<V>, cards: Vec<Card<V>>) -> LockSeat<V>
    requires seat { (seat.table_id ≡ desk_id desk.now) × (seat.me ≡ (closer [], [])) }
    requires of { All (λ c. card_desk c ≡ desk_id desk.now) cards.items }
    ensures { (result.table_id ≡ desk_id desk.now) × (result.me ≡ (closer (map pair_of cards.items), [])) }
{
    for card in cards {
        let Card {
            seat: other,
            number: _,
            seen: _,
        } = card;
        desk.table.shared.join_seat::<TakeBack>(&mut seat, other);
    }
    seat
}

/// Takes all cards of the desk back, in any order, and gives the value. It needs no memory, and waits for nobody.
pub fn close<V: Booked>(desk: Desk<V>, cards: Seq<Card<V>>) -> V
    requires of { All (λ c. card_desk c ≡ desk_id desk) cards }
    requires all { HasNumbers (desk_passes desk) (map card_number cards) }
    ensures { Closes V.by (V.history (desk_first desk)) (map pair_of cards) (V.history result) }
{
    let (_, seat) = desk.table.shared.load_new_seat::<Open>(0);
    let seat = take_back(&desk, seat, cards.into_vec());
    let Desk { table } = desk;
    let mut closed = table.close_with(seat);
    let value = closed.take(0).unwrap();
    closed.free();
    value
}
