//! The yardstick: the same threads, value and turns under a `Mutex`.
use crate::numbers::Numbers;
use std::alloc::{AllocError, Global};
use std::sync::{Mutex, Wait};
use std::thread;
use std::thread::Threads;

fn add_all<R: Wait>(rt: &R, cell: &Mutex<Numbers>, by: u32, turns: u64) {
    for _ in 0..turns {
        let added = cell.lock(rt).add(by, 1);
        if added.is_err() {
            return;
        }
    }
}

/// So many threads add 1 so often each.
pub fn run<R: Threads + Wait + Sync>(
    rt: &R,
    alloc: Global,
    workers: u32,
    turns: u64,
) -> Result<Numbers, AllocError> {
    let mut numbers = Vec::with_capacity(alloc, workers as usize)?;
    for i in 0..workers {
        numbers.push(i)?;
    }
    let entries = usize::try_from(turns.saturating_mul(u64::from(workers))).map_err(
        |_| AllocError,
    )?;
    let cell = Mutex::new(Numbers::with_room(alloc, entries)?);
    let threads = numbers.len();
    if threads > 0 {
        thread::for_each_mut(
            rt,
            numbers.as_mut_slice(),
            threads,
            &|_, by| add_all(rt, &cell, *by, turns),
        );
    }
    Ok(cell.into_inner())
}
