//! Times connections over memory that are served at the same time at one desk, each in a thread of its own.
//!
//!     bench_desk LOADING REQUESTS..
//!
//! Each word names a file with the bytes of a connection. The first is served before the others, of which each has a thread.
//! It prints `REPLIES TIME`: how many replies of success the others were given, and in how many nanoseconds.
#![tactic(auto)]

mod client;
mod run;

use run::{measure, read_all};
use std::env;

fn main(rt: HostRuntime) -> anyhow::Result<()> {
    let files = read_all(&rt, env::args(&rt)?)?;
    // Nothing is measured of nothing.
    if files.len() < 2 {
        return Ok(());
    }
    if files.len() > 64 {
        anyhow::bail!("there are at most 63 connections beside the first");
    }
    let (replies, time) = measure(&rt, files)?;
    println!(rt; "{replies} {time}")?;
    Ok(())
}
