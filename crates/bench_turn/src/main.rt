//! How many turns a second the turn lock gives, beside a `Mutex` over the same value in the same run.
//!
//! With a number of turns as its argument the program prints the rates for 1, 2, 4 and 8 passes. With none it takes a few turns, and prints how many.
#![tactic(auto)]

mod mutex;
mod numbers;
mod run;
#[cfg(test)]
mod tests;
mod worker;

ghost use Rattle.std.specs.Prelude.{◌≤◌};

use anyhow::{Context, Result};
use std::alloc::Global;
use std::env;
use std::rt::Runtime;
use std::sync::Wait;
use std::thread::Threads;
use std::time::{Duration, Instant};

const FEW: u64 = 800;

const REPEATS: u32 = 5;

fn per_second(turns: u64, spent: Duration) -> u64 {
    let nanos = spent.as_nanos().max(1);
    u64::try_from(u128::from(turns) * 1_000_000_000 / nanos).unwrap_or(u64::MAX)
}

// The best rates of the lock and of the `Mutex`, whose runs alternate.
fn best_rates<R: Runtime<A = Global> + Threads + Wait + Sync>(
    rt: &R,
    passes: u32,
    each: u64,
) -> Result<(u64, u64)>
    requires { (1 ≤ passes) × (passes ≤ 64) }
{
    let (mut lock, mut mutex) = (1, 1);
    for _ in 0..REPEATS {
        let start = Instant::now(rt)?;
        let taken = run::run(rt, rt.alloc(), passes, each)?.len();
        lock = per_second(taken, start.elapsed(rt)?).max(lock);
        let start = Instant::now(rt)?;
        let added = mutex::run(rt, rt.alloc(), passes, each)?.len();
        mutex = per_second(added, start.elapsed(rt)?).max(mutex);
    }
    Ok((lock, mutex))
}

fn main(rt: HostRuntime) -> Result<()> {
    let word = env::args(&rt)?.nth(1);
    let turns = match &word {
        Some(word) => word
            .parse::<u64>()
            .context("the argument is a number of turns")?,
        None => FEW,
    };
    for passes in [1u32, 2, 4, 8] {
        let each = turns / u64::from(passes);
        if word.is_some() {
            let (lock, mutex) = best_rates(&rt, passes, each)?;
            let percent = u128::from(lock) * 100 / u128::from(mutex.max(1));
            println!(rt; "{passes} passes: {lock} turns a second, Mutex {mutex}, {percent} %")?;
        } else {
            let taken = run::run(&rt, rt.alloc(), passes, each)?.len();
            println!(rt; "{passes} passes: {taken} turns")?;
        }
    }
    Ok(())
}
