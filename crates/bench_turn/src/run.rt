//! A whole run: a lock, workers in threads, and the closed value.
ghost use Rattle.std.specs.Prelude.{◌≡◌, ℕ, ◌+◌, ◌<◌, ◌≤◌, [], vec_len, vec_capacity, IfOk};
ghost use Rattle.sc_turn.specs.Passes.{desk_id, desk_passes, AreNew};
ghost use Rattle.bench_turn.specs.Numbers.{entries_of};
ghost use Rattle.bench_turn.specs.Workers.{SameWorkers};
ghost use Rattle.bench_turn.specs.Runs.{AreBound, AreBack, HasRun};

use crate::numbers::Numbers;
use crate::worker::Worker;
use sc_turn::{Card, Desk, Seq, close, make};
use std::alloc::{AllocError, Global};
use std::sync::Wait;
use std::thread;
use std::thread::Threads;

fn bind_all<'d>(
    desk: &'d Desk<Numbers>,
    cards: Vec<Card<Numbers>>,
    mut workers: Vec<Worker<'d>>,
) -> Vec<Worker<'d>>
    requires cards { AreNew (desk_id desk.now) [] (desk_passes desk.now) cards.items }
    requires room { (vec_len workers ≡ 0) × (vec_len cards ≤ vec_capacity workers) }
    ensures { AreBound (desk_id desk.entry.now) (desk_passes desk.entry.now) result.items }
{
    for card in cards {
        workers.push_reserved(Worker::new(card.bind(desk)));
    }
    workers
}

fn unbind_all<'d>(workers: Vec<Worker<'d>>, mut cards: Vec<Card<Numbers>>) -> Seq<Card<Numbers>>
    requires room { (vec_len cards ≡ 0) × (vec_len workers ≤ vec_capacity cards) }
    ensures { AreBack workers.entry.items result }
{
    for worker in workers {
        cards.push_reserved(worker.into_card());
    }
    Seq::of(cards)
}

// All workers at once, each in a thread.
fn work_all<'d, R: Threads + Wait + Sync>(rt: &R, workers: &mut Vec<Worker<'d>>, turns: u64)
    requires { 0 < vec_len workers.old }
    ensures { (vec_len workers.new ≡ vec_len workers.old) × SameWorkers workers.old.items workers.new.items }
{
    let threads = workers.len();
    thread::for_each_mut(
        rt,
        workers.as_mut_slice(),
        threads,
        &|_, worker| worker.work(rt, turns),
    );
}

/// So many workers take so many turns each, and add 1 in each turn that finds memory. Each worker's entries are as many as it has added, and there are no others.
pub fn run<R: Threads + Wait + Sync>(
    rt: &R,
    alloc: Global,
    workers: u32,
    turns: u64,
) -> Result<Numbers, AllocError>
    requires { (1 ≤ workers) × (workers ≤ 64) }
    ensures { IfOk result (λ n. HasRun workers (entries_of n)) }
{
    let count = workers as usize;
    let room = Vec::with_capacity(alloc, count)?;
    let back = Vec::with_capacity(alloc, count)?;
    let entries = usize::try_from(turns.saturating_mul(u64::from(workers))).map_err(
        |_| AllocError,
    )?;
    let numbers = Numbers::with_room(alloc, entries)?;
    let Ok((desk, cards)) = make(alloc, numbers, workers) else {
        return Err(AllocError);
    };
    let mut pool = bind_all(&desk, cards.into_vec(), room);
    work_all(rt, &mut pool, turns);
    let cards = unbind_all(pool, back);
    Ok(close(desk, cards))
}
