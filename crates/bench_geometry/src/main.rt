//! Times reading geometries out of trees, over texts of GeoJSON that come on standard input, one a line.
//!
//! It prints `GEOMETRIES POSITIONS BYTES LOOP READ BOX CHECK`: the number of geometries, of their positions and of
//! their texts' bytes, the microseconds that a plain loop over the bytes, reading all geometries out of trees that were
//! read before, and taking the boxes of all of them took, and a number that depends on all of it.
#![tactic(auto)]

use sc_geom::{Geom, box_of, geom_of_json};
use sc_json::{Json, read_json};
use std::alloc::{AllocError, Global};
use std::io::Read;
use std::time::Instant;

/// A loop that looks at each byte, as any reader must at least.
fn checksum(bytes: &[u8]) -> u64 {
    let mut sum: u64 = 0;
    for byte in bytes {
        sum = sum.rotate_left(5) ^ u64::from(*byte);
    }
    sum
}

fn read_all(alloc: Global, trees: &[Json], geoms: &mut Vec<Geom>) -> Result<(), AllocError> {
    for tree in trees {
        if let Ok(geom) = geom_of_json(alloc, tree, u32::MAX) {
            geoms.push(geom)?;
        }
    }
    Ok(())
}

fn boxes(geoms: &[Geom]) -> u64 {
    let mut sum: u64 = 0;
    for geom in geoms {
        let extent = box_of(geom);
        sum = sum.rotate_left(5) ^ extent.west().unsigned_abs() ^ extent.north().unsigned_abs();
    }
    sum
}

fn positions(geoms: &[Geom]) -> usize {
    let mut count: usize = 0;
    for geom in geoms {
        count = count.wrapping_add(geom.points().len());
        for line in geom.lines() {
            count = count.wrapping_add(line.len());
        }
        for rings in geom.areas() {
            for ring in rings.as_slice() {
                count = count.wrapping_add(ring.len());
            }
        }
    }
    count
}

fn main(rt: HostRuntime) -> anyhow::Result<()> {
    let alloc = rt.alloc();
    let mut bytes = Vec::new(alloc);
    rt.reader().read_to_end(&mut bytes)?;
    // Nothing is measured of nothing.
    if bytes.is_empty() {
        return Ok(());
    }
    let mut trees = Vec::new(alloc);
    for text in bytes.as_slice().split(|byte| *byte == b'\n') {
        if let Ok(tree) = read_json(alloc, text) {
            trees.push(tree)?;
        }
    }
    let mut geoms = Vec::with_capacity(alloc, trees.len())?;

    let start = Instant::now(&rt)?;
    let sum = checksum(bytes.as_slice());
    let looping = start.elapsed(&rt)?.as_micros();
    let start = Instant::now(&rt)?;
    read_all(alloc, trees.as_slice(), &mut geoms)?;
    let reading = start.elapsed(&rt)?.as_micros();
    let start = Instant::now(&rt)?;
    let extents = boxes(geoms.as_slice());
    let boxing = start.elapsed(&rt)?.as_micros();

    let (read, count, length) = (geoms.len(), positions(geoms.as_slice()), bytes.len());
    let check = sum ^ extents;
    println!(rt; "{read} {count} {length} {looping} {reading} {boxing} {check}")?;
    Ok(())
}
