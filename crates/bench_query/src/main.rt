//! Times reading the queries of searches, one a line of standard input: a line that begins with `{` is a search's body, any
//! other a query string.
//!
//! It prints `LINES READ BYTES LOOP TIME SUM`: the number of lines, how many of them are queries, their bytes, the
//! nanoseconds that a plain loop over the bytes and reading all queries took, and a sum of the bytes.
#![tactic(auto)]

use form_urlencoded::parse;
use sc_base::Text;
use sc_json::read_json;
use sc_query::{Pair, of_get, of_post};
use std::alloc::{AllocError, Global};
use std::io::Read;
use std::time::Instant;

/// A loop that looks at each byte, as any reader must at least.
fn checksum(bytes: &[u8]) -> u32 {
    let mut sum: u32 = 0;
    for byte in bytes {
        sum = sum.rotate_left(5) ^ u32::from(*byte);
    }
    sum
}

/// The pairs of a query string, decoded.
fn pairs_of(alloc: Global, text: &[u8]) -> Result<Vec<Pair>, AllocError> {
    let mut pairs = Vec::new(alloc);
    for item in parse(alloc, text) {
        let (name, value) = item?;
        let name = Text::from_str(alloc, name.as_str())?;
        let value = Text::from_str(alloc, value.as_str())?;
        pairs.push(Pair { name, value })?;
    }
    Ok(pairs)
}

/// Whether a query string is a query.
fn is_query_string(alloc: Global, text: &[u8]) -> Result<bool, AllocError> {
    let pairs = pairs_of(alloc, text)?;
    Ok(of_get(alloc, pairs.as_slice()).is_ok())
}

/// Whether a search's body is a query.
fn is_body(alloc: Global, text: &[u8]) -> bool {
    match read_json(alloc, text) {
        Ok(tree) => of_post(alloc, &tree).is_ok(),
        Err(_) => false,
    }
}

/// How many lines there are, and how many of them are queries.
fn read_all(alloc: Global, bytes: &[u8]) -> Result<(u64, u64), AllocError> {
    let mut lines: u64 = 0;
    let mut read: u64 = 0;
    for line in bytes.split(|byte| *byte == b'\n') {
        if line.is_empty() {
            continue;
        }
        lines = lines.wrapping_add(1);
        let is_query = if line.starts_with(b"{") {
            is_body(alloc, line)
        } else {
            is_query_string(alloc, line)?
        };
        read = read.wrapping_add(u64::from(is_query));
    }
    Ok((lines, read))
}

fn main(rt: HostRuntime) -> anyhow::Result<()> {
    let mut bytes = Vec::new(rt.alloc());
    rt.reader().read_to_end(&mut bytes)?;
    // Nothing is measured of nothing.
    if bytes.is_empty() {
        return Ok(());
    }
    let start = Instant::now(&rt)?;
    let sum = checksum(bytes.as_slice());
    let looping = start.elapsed(&rt)?.as_nanos();
    let start = Instant::now(&rt)?;
    let (lines, read) = read_all(rt.alloc(), bytes.as_slice())?;
    let time = start.elapsed(&rt)?.as_nanos();
    let length = bytes.len();
    println!(rt; "{lines} {read} {length} {looping} {time} {sum}")?;
    Ok(())
}
