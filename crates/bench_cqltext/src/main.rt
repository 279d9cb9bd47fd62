//! Times reading and writing filters as CQL2 text, over a corpus with one text a line, which comes on standard input.
//!
//! It prints `BYTES LOOP READ WRITE WRITTEN SUM`: the corpus's bytes, the microseconds that a plain loop over the bytes,
//! reading all texts and writing all filters took, the bytes that were written, and a sum of the corpus's bytes.
#![tactic(auto)]

use sc_cqltext::{Filter, read_text, write_text};
use std::alloc::{AllocError, Global};
use std::io::Read;
use std::time::Instant;

/// A loop that looks at each byte, as any reader must at least.
fn checksum(bytes: &[u8]) -> u32 {
    let mut sum: u32 = 0;
    for byte in bytes {
        sum = sum.rotate_left(5) ^ u32::from(*byte);
    }
    sum
}

/// Reads the filters of the lines.
fn read_all(alloc: Global, bytes: &[u8], filters: &mut Vec<Filter>) -> Result<(), AllocError> {
    for line in bytes.split(|byte| *byte == b'\n') {
        if let Ok(filter) = read_text(alloc, line) {
            filters.push(filter)?;
        }
    }
    Ok(())
}

/// The bytes of the filter's text; none where it has no text.
fn length_of(alloc: Global, filter: &Filter) -> u64 {
    match write_text(alloc, filter) {
        Ok(text) => text.len() as u64,
        Err(_) => 0,
    }
}

/// The bytes of the texts of all filters.
fn write_all(alloc: Global, filters: &[Filter]) -> u64 {
    let mut length: u64 = 0;
    for filter in filters {
        length = length.wrapping_add(length_of(alloc, filter));
    }
    length
}

/// The microseconds that reading all lines and writing all filters took, and the bytes that were written.
fn measure(rt: &HostRuntime, bytes: &[u8]) -> anyhow::Result<(u128, u128, u64)> {
    let alloc = rt.alloc();
    let mut filters = Vec::new(alloc);
    let start = Instant::now(rt)?;
    read_all(alloc, bytes, &mut filters)?;
    let reading = start.elapsed(rt)?.as_micros();
    let start = Instant::now(rt)?;
    let length = write_all(alloc, filters.as_slice());
    Ok((reading, start.elapsed(rt)?.as_micros(), length))
}

fn main(rt: HostRuntime) -> anyhow::Result<()> {
    let mut bytes = Vec::new(rt.alloc());
    rt.reader().read_to_end(&mut bytes)?;
    // Nothing is measured of nothing.
    if bytes.is_empty() {
        return Ok(());
    }
    let start = Instant::now(&rt)?;
    let sum = checksum(bytes.as_slice());
    let looping = start.elapsed(&rt)?.as_micros();
    let (reading, writing, written) = measure(&rt, bytes.as_slice())?;
    let length = bytes.len();
    println!(rt; "{length} {looping} {reading} {writing} {written} {sum}")?;
    Ok(())
}
