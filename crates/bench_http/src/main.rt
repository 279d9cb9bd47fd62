//! Times reading requests, over the bytes of a connection that come on standard input.
//!
//! It prints `REQUESTS BYTES SCAN READ CHECK`: the number of requests and of the connection's bytes, the microseconds
//! that a scan for the blank lines over the same bytes and reading all requests took, and a number that depends on all
//! of it.
#![tactic(auto)]

use memchr::memmem;
use sc_http::{Intake, Seq};
use sc_outside::MemSource;
use std::alloc::{AllocError, Global};
use std::io::Read;
use std::time::Instant;

/// How many blank lines there are: what a reader of heads has to find at least.
fn blank_lines(bytes: &[u8]) -> u64 {
    let mut count: u64 = 0;
    for _ in memmem::find_iter(bytes, b"\r\n\r\n") {
        count = count.wrapping_add(1);
    }
    count
}

/// The requests of the bytes, and the bytes of their bodies.
fn read_all(alloc: Global, bytes: Vec<u8>) -> Result<(u64, u64), AllocError> {
    let mut source = MemSource::new(Seq::of(bytes), Seq::new(alloc));
    let mut intake = Intake::new(alloc)?;
    let (mut requests, mut content) = (0u64, 0u64);
    for _ in 0..u64::MAX {
        let Ok(Some(request)) = intake.next_request(alloc, &mut source) else {
            break;
        };
        requests = requests.wrapping_add(1);
        content = content.wrapping_add(request.body.len() as u64);
    }
    Ok((requests, content))
}

fn main(rt: HostRuntime) -> anyhow::Result<()> {
    let alloc = rt.alloc();
    let mut bytes = Vec::new(alloc);
    rt.reader().read_to_end(&mut bytes)?;
    // Nothing is measured of nothing.
    if bytes.is_empty() {
        return Ok(());
    }
    let length = bytes.len();
    let start = Instant::now(&rt)?;
    let blank = blank_lines(bytes.as_slice());
    let scanning = start.elapsed(&rt)?.as_micros();
    let start = Instant::now(&rt)?;
    let (requests, content) = read_all(alloc, bytes)?;
    let reading = start.elapsed(&rt)?.as_micros();
    let check = blank ^ content;
    println!(rt; "{requests} {length} {scanning} {reading} {check}")?;
    Ok(())
}
