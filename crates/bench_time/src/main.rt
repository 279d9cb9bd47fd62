//! Times reading and writing instants over texts that come on standard input, one a line.
//!
//! It prints `TEXTS BYTES LOOP READ YEAR WRITE CHECK`: the number of texts and of their bytes, the microseconds that a
//! plain loop over the bytes, reading all texts, taking the year and month of all instants, and writing all of them
//! took, and a number that depends on all that was read and written.
#![tactic(auto)]

use sc_time::{month_of, read_instant, write_instant, year_of};
use std::alloc::{AllocError, Global};
use std::io::Read;
use std::time::Instant;

/// A loop that looks at each byte, as any reader must at least.
fn checksum(texts: &[&[u8]]) -> u64 {
    let mut sum: u64 = 0;
    for text in texts {
        for byte in text.iter() {
            sum = sum.rotate_left(5) ^ u64::from(*byte);
        }
    }
    sum
}

fn read_all(texts: &[&[u8]], instants: &mut Vec<sc_time::Instant>) -> Result<(), AllocError> {
    for text in texts {
        if let Ok(at) = read_instant(text) {
            instants.push(at)?;
        }
    }
    Ok(())
}

fn months(instants: &[sc_time::Instant]) -> u64 {
    let mut sum: u64 = 0;
    for at in instants {
        let year = u64::from(year_of(*at).unsigned_abs());
        let month = u64::from(month_of(*at).unsigned_abs());
        sum = sum.rotate_left(5) ^ year ^ month;
    }
    sum
}

fn write_all(alloc: Global, instants: &[sc_time::Instant]) -> Result<u64, AllocError> {
    let mut length: u64 = 0;
    for at in instants {
        let text = write_instant(alloc, *at)?;
        length = length.wrapping_add(text.len() as u64);
    }
    Ok(length)
}

fn main(rt: HostRuntime) -> anyhow::Result<()> {
    let alloc = rt.alloc();
    let mut bytes = Vec::new(alloc);
    rt.reader().read_to_end(&mut bytes)?;
    // Nothing is measured of nothing.
    if bytes.is_empty() {
        return Ok(());
    }
    let mut texts = Vec::new(alloc);
    for text in bytes.as_slice().split(|byte| *byte == b'\n') {
        if !text.is_empty() {
            texts.push(text)?;
        }
    }
    let mut instants = Vec::with_capacity(alloc, texts.len())?;

    let start = Instant::now(&rt)?;
    let sum = checksum(texts.as_slice());
    let looping = start.elapsed(&rt)?.as_micros();
    let start = Instant::now(&rt)?;
    read_all(texts.as_slice(), &mut instants)?;
    let reading = start.elapsed(&rt)?.as_micros();
    let start = Instant::now(&rt)?;
    let month = months(instants.as_slice());
    let naming = start.elapsed(&rt)?.as_micros();
    let start = Instant::now(&rt)?;
    let written = write_all(alloc, instants.as_slice())?;
    let writing = start.elapsed(&rt)?.as_micros();

    let (count, length) = (instants.len(), bytes.len());
    let check = sum ^ month ^ written;
    println!(rt; "{count} {length} {looping} {reading} {naming} {writing} {check}")?;
    Ok(())
}
