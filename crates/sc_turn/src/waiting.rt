//! How a seat draws a ticket, and waits until it is served.
ghost use Rattle.std.specs.Prelude.{◌≡◌, ◌≢◌, ℕ, ◌+◌, ◌^◌, ◌<◌, Some};
ghost use Rattle.sc_turn.specs.declared.view.Role.TheVariants.{Idle, Drawn};
ghost use Rattle.sc_turn.specs.Views.{in_role};
ghost use Rattle.sc_turn.specs.Steps.{IsCalled};

use crate::booked::Booked;
use crate::plays::{Draw, Read};
use crate::rule::{InTurns, Origin};
use crate::view::View;
use atomic_table::{Seat, Shared};
use std::sync::Wait;
use std::time::Duration;
use std::{hint, thread};

pub(crate) const TICKET: usize = 0;

pub(crate) const SERVING: usize = 1;

pub(crate) const LENGTH: usize = 2;

// How many rounds of waiting spin, each twice as long as the last, then yield, and then, before a ticket is drawn, sleep.
const SPINS: u32 = 8;

const YIELDS: u32 = 4;

const NAPS: u32 = 16;

// A round spins for 2 to this power of the processor's hints at most.
const MOST_HINTS: u32 = 6;

const NAP_MICROS: u64 = 50;

pub(crate) type LockWords<V> = Shared<Option<V>, View<<V as Booked>::Entry>, Origin<V>, InTurns>;

pub(crate) type LockSeat<V> = Seat<Option<V>, View<<V as Booked>::Entry>>;

fn draw<V: Booked>(words: &LockWords<V>, seat: &mut LockSeat<V>) -> u64
    requires table { (seat.old.table_id ≡ words.now.table_id) × (words.now.table_id.words ≡ 3) }
    requires idle { seat.old.me.0.role ≡ Idle }
    ensures seat { (seat.new.table_id ≡ seat.old.table_id) × (seat.new.id ≡ seat.old.id) × (seat.new.me.1 ≡ seat.old.me.1) }
    ensures ticket { result < 2 ^ 63 → seat.new.me.0 ≡ in_role seat.old.me.0 (Drawn result) }
{
    words.fetch_add::<Draw>(seat, TICKET, 1)
}

fn read_serving<V: Booked>(words: &LockWords<V>, seat: &mut LockSeat<V>, ticket: u64) -> u64
    requires table { (seat.old.table_id ≡ words.now.table_id) × (words.now.table_id.words ≡ 3) }
    requires drawn { seat.old.me.0.role ≡ Drawn ticket }
    ensures seat { (seat.new.table_id ≡ seat.old.table_id) × (seat.new.id ≡ seat.old.id) }
    ensures called { result ≡ ticket → IsCalled V.history V.by ticket seat.old.me seat.new.me }
    ensures not { result ≢ ticket → seat.new.me ≡ seat.old.me }
{
    words.load::<Read>(seat, SERVING)
}

// The low half of a word, which is what a thread that sleeps on the word compares.
fn low_half(word: u64) -> u32 {
    (word % (1 << 32)) as u32
}

// One round of waiting: the first rounds spin, the next ones yield, and later ones sleep for a moment, or until the next ticket is served.
fn pause<V: Booked, R: Wait>(rt: &R, words: &LockWords<V>, round: u32, serving: u64)
    requires { words.now.table_id.words ≡ 3 }
{
    if round < SPINS {
        for _ in 0..1u32 << round.min(MOST_HINTS) {
            hint::spin_loop();
        }
    } else if round < SPINS + YIELDS {
        thread::yield_now();
    } else {
        words.park_timeout(
            rt,
            SERVING,
            low_half(serving),
            Duration::from_micros(NAP_MICROS),
        );
    }
}

// Gives way for a bounded time to those that have drawn a ticket: strict turns between threads that run at once cost each of them a switch.
fn give_way<V: Booked, R: Wait>(rt: &R, words: &LockWords<V>)
    requires { words.now.table_id.words ≡ 3 }
{
    for round in 0..SPINS + YIELDS + NAPS {
        let serving = words.peek(SERVING);
        if words.peek(TICKET) == serving {
            return;
        }
        pause(rt, words, round, serving);
    }
}

/// Draws a ticket, and waits until it is served.
pub(crate) fn wait_called<V: Booked, R: Wait>(rt: &R, words: &LockWords<V>, seat: &mut LockSeat<V>)
    requires table { (seat.old.table_id ≡ words.now.table_id) × (words.now.table_id.words ≡ 3) }
    requires idle { seat.old.me.0.role ≡ Idle }
    ensures seat { (seat.new.table_id ≡ seat.old.table_id) × (seat.new.id ≡ seat.old.id) }
    ensures called { (ticket : ℕ) × IsCalled V.history V.by ticket seat.old.me seat.new.me }
{
    give_way(rt, words);
    let ticket = draw(words, seat);
    if ticket >= 1 << 63 {
        for _ in rt.forever() {}
        unreachable!()
    }
    let mut round = 0u32;
    for _ in rt.forever() {
        let serving = read_serving(words, seat, ticket);
        if serving == ticket {
            return;
        }
        pause(rt, words, round, serving);
        round = round.saturating_add(1);
    }
    unreachable!()
}

/// Wakes those that wait in line, once a ticket past `passed` is served.
pub(crate) fn wake_line<V: Booked>(words: &LockWords<V>, passed: u64)
    requires { words.now.table_id.words ≡ 3 }
{
    if words.peek(TICKET).saturating_sub(passed) > 1 {
        words.wake_all(SERVING);
    }
}
