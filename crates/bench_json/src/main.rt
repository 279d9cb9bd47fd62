//! Times the JSON reader and writer over a corpus with one text a line, which comes on standard input.
//!
//! With no word it prints `BYTES LOOP READ WRITE`: the corpus's bytes, and the microseconds that a plain loop over
//! the bytes, reading and writing took. With the word `hold` it keeps all trees, so that the memory that the process
//! used at most is theirs and the corpus's, and prints their number.
#![tactic(auto)]

use sc_json::{read_json, write_json};
use std::alloc::Global;
use std::env;
use std::io::Read;
use std::time::{Duration, Instant};

/// A loop that looks at each byte, as any reader must at least.
fn checksum(bytes: &[u8]) -> u32 {
    let mut sum: u32 = 0;
    for byte in bytes {
        sum = sum.rotate_left(5) ^ u32::from(*byte);
    }
    sum
}

fn hold(rt: &HostRuntime, bytes: &[u8]) -> anyhow::Result<()> {
    let mut trees = Vec::new(rt.alloc());
    for line in bytes.split(|byte| *byte == b'\n') {
        if let Ok(tree) = read_json(rt.alloc(), line) {
            trees.push(tree)?;
        }
    }
    let count = trees.len();
    println!(rt; "{count}")?;
    Ok(())
}

/// Reads the text and writes it back; gives how long each took, and whether the written text is the text.
fn again(
    rt: &HostRuntime,
    alloc: Global,
    line: &[u8],
) -> anyhow::Result<(Duration, Duration, bool)> {
    let start = Instant::now(rt)?;
    let read = read_json(alloc, line);
    let reading = start.elapsed(rt)?;
    let Ok(tree) = read else {
        return Ok((reading, Duration::ZERO, false));
    };
    let start = Instant::now(rt)?;
    let written = write_json(alloc, &tree)?;
    let writing = start.elapsed(rt)?;
    Ok((reading, writing, written.bytes() == line))
}

fn main(rt: HostRuntime) -> anyhow::Result<()> {
    let alloc = rt.alloc();
    let mut bytes = Vec::new(alloc);
    rt.reader().read_to_end(&mut bytes)?;
    // Nothing is measured of nothing.
    if bytes.is_empty() {
        return Ok(());
    }
    if env::args(&rt)?.count() > 1 {
        return hold(&rt, bytes.as_slice());
    }
    let start = Instant::now(&rt)?;
    let sum = checksum(bytes.as_slice());
    let looping = start.elapsed(&rt)?.as_micros();
    let (mut reading, mut writing) = (0u128, 0u128);
    for line in bytes.as_slice().split(|byte| *byte == b'\n') {
        if line.is_empty() {
            continue;
        }
        let (read, write, same) = again(&rt, alloc, line)?;
        if !same {
            println!(rt; "a text differs")?;
            return Ok(());
        }
        reading = reading.saturating_add(read.as_nanos());
        writing = writing.saturating_add(write.as_nanos());
    }
    let length = bytes.len();
    let (reading, writing) = (reading / 1000, writing / 1000);
    println!(rt; "{length} {looping} {reading} {writing} {sum}")?;
    Ok(())
}
