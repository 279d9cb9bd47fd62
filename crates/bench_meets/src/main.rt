//! Times `meets` over pairs of geometries, whose GeoJSON texts come on standard input, one a line: the first with the
//! second, the third with the fourth, and so on.
//!
//! It prints `PAIRS MEETING LOOP MEETS AGREE`: the number of pairs and of those that meet, the nanoseconds that a plain
//! loop over all pairs of segments and of positions and areas took and those that `meets` took, and 1 where both found
//! the same number.
#![tactic(auto)]

mod plain;

use plain::{Lists, lists_of};
use sc_cross::meets;
use sc_geom::{Geom, geom_of_json};
use sc_json::read_json;
use std::alloc::{AllocError, Global};
use std::io::Read;
use std::time::Instant;

fn count_meeting(pairs: &[(Geom, Geom)]) -> u64 {
    let mut count: u64 = 0;
    for (a, b) in pairs {
        if meets(a, b) {
            count = count.wrapping_add(1);
        }
    }
    count
}

fn count_plainly(pairs: &[(Lists, Lists)]) -> u64 {
    let mut count: u64 = 0;
    for (a, b) in pairs {
        if plain::meets(a, b) {
            count = count.wrapping_add(1);
        }
    }
    count
}

/// The geometries of the lines, two by two.
fn pairs_of(alloc: Global, bytes: &[u8]) -> Result<Vec<(Geom, Geom)>, AllocError> {
    let mut pairs = Vec::new(alloc);
    let mut one = None;
    for text in bytes.split(|byte| *byte == b'\n') {
        let Ok(tree) = read_json(alloc, text) else {
            continue;
        };
        let Ok(geom) = geom_of_json(alloc, &tree, u32::MAX) else {
            continue;
        };
        match one {
            None => one = Some(geom),
            Some(first) => {
                pairs.push((first, geom))?;
                one = None;
            }
        }
    }
    Ok(pairs)
}

fn main(rt: HostRuntime) -> anyhow::Result<()> {
    let alloc = rt.alloc();
    let mut bytes = Vec::new(alloc);
    rt.reader().read_to_end(&mut bytes)?;
    // Nothing is measured of nothing.
    if bytes.is_empty() {
        return Ok(());
    }
    let pairs = pairs_of(alloc, bytes.as_slice())?;
    let mut lists = Vec::with_capacity(alloc, pairs.len())?;
    for (a, b) in pairs.as_slice() {
        lists.push((lists_of(alloc, a)?, lists_of(alloc, b)?))?;
    }

    let start = Instant::now(&rt)?;
    let plainly = count_plainly(lists.as_slice());
    let looping = start.elapsed(&rt)?.as_nanos();
    let start = Instant::now(&rt)?;
    let meeting = count_meeting(pairs.as_slice());
    let time = start.elapsed(&rt)?.as_nanos();

    let count = pairs.len();
    let agree = u8::from(plainly == meeting);
    println!(rt; "{count} {meeting} {looping} {time} {agree}")?;
    Ok(())
}
