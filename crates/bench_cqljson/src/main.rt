//! Times reading and writing filters as trees of CQL2 JSON, over a corpus with one text a line, which comes on standard
//! input.
//!
//! It prints `BYTES JSON READ WRITE FILTERS`: the corpus's bytes, the microseconds that reading the JSON of all texts,
//! reading the filters of all trees and writing all filters as trees took, and the number of filters.
#![tactic(auto)]

use sc_cqljson::{Filter, Json, read_tree};
use sc_cqltree::write_tree;
use sc_json::read_json;
use std::alloc::{AllocError, Global};
use std::io::Read;
use std::time::Instant;

/// Reads the trees of the lines.
fn read_trees(alloc: Global, bytes: &[u8], trees: &mut Vec<Json>) -> Result<(), AllocError> {
    for line in bytes.split(|byte| *byte == b'\n') {
        if let Ok(tree) = read_json(alloc, line) {
            trees.push(tree)?;
        }
    }
    Ok(())
}

/// Reads the filters of the trees.
fn read_filters(
    alloc: Global,
    trees: &[Json],
    filters: &mut Vec<Filter>,
) -> Result<(), AllocError> {
    for tree in trees {
        if let Ok(filter) = read_tree(alloc, tree) {
            filters.push(filter)?;
        }
    }
    Ok(())
}

/// Writes the trees of the filters.
fn write_trees(alloc: Global, filters: &[Filter], trees: &mut Vec<Json>) -> Result<(), AllocError> {
    for filter in filters {
        trees.push(write_tree(alloc, filter)?)?;
    }
    Ok(())
}

fn main(rt: HostRuntime) -> anyhow::Result<()> {
    let alloc = rt.alloc();
    let mut bytes = Vec::new(alloc);
    rt.reader().read_to_end(&mut bytes)?;
    // Nothing is measured of nothing.
    if bytes.is_empty() {
        return Ok(());
    }
    let (mut trees, mut filters, mut written) = (Vec::new(alloc), Vec::new(alloc), Vec::new(alloc));
    let start = Instant::now(&rt)?;
    read_trees(alloc, bytes.as_slice(), &mut trees)?;
    let json = start.elapsed(&rt)?.as_micros();
    let start = Instant::now(&rt)?;
    read_filters(alloc, trees.as_slice(), &mut filters)?;
    let reading = start.elapsed(&rt)?.as_micros();
    let start = Instant::now(&rt)?;
    write_trees(alloc, filters.as_slice(), &mut written)?;
    let writing = start.elapsed(&rt)?.as_micros();
    let (length, count) = (bytes.len(), written.len());
    println!(rt; "{length} {json} {reading} {writing} {count}")?;
    Ok(())
}
