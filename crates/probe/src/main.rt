//! Answers single questions about the libraries, for the repository's own tests.
//!
//! Standard input has lines `KIND HEX`, HEX being the input's bytes in hexadecimal digits, `-` for none. Each gets one
//! line of answer. A kind that isn't known, and an input that isn't of its kind's outer shape, answers `skip`.
#![tactic(auto)]

mod collections;
mod cuts;
mod geometries;
mod item;
mod journals;
mod json;
mod loads;
mod numbers;
mod orders;
mod records;
mod stops;
mod times;

use std::alloc::{AllocError, Global};
use std::io;
use std::io::BufRead;

/// The answer to an input of a kind; none where it has none.
fn answer(alloc: Global, kind: &[u8], input: &[u8]) -> Result<Option<String>, AllocError> {
    match kind {
        b"collection" => collections::collection(alloc, input),
        b"cut-key" => cuts::cut_key(alloc, input),
        b"dec" => Ok(Some(numbers::dec(alloc, input)?)),
        b"dec-order" => numbers::dec_order(alloc, input),
        b"generate" => loads::generated(alloc, input),
        b"item" => item::item(alloc, input),
        b"journal" => Ok(Some(journals::journal(alloc, input)?)),
        b"journal-stop" => stops::journal_stop(alloc, input),
        b"json" => Ok(Some(json::json(alloc, input)?)),
        b"key-order" => orders::key_order(alloc, input),
        b"merge-patch" => item::patch(alloc, input),
        b"instant" => Ok(Some(times::instant(alloc, input)?)),
        b"date" => Ok(Some(times::date(alloc, input)?)),
        b"range" => Ok(Some(times::range(alloc, input)?)),
        b"geojson" => Ok(Some(geometries::geojson(alloc, input)?)),
        b"bbox" => geometries::bbox(alloc, input),
        b"meets" => geometries::meeting(alloc, input),
        b"sort-text" => orders::sort_text(alloc, input),
        b"sort-tree" => orders::sort_tree(alloc, input),
        b"span" => cuts::span(alloc, input),
        b"token" => orders::token(alloc, input),
        b"token-write" => orders::token_write(alloc, input),
        b"wkt" => Ok(Some(geometries::wkt(alloc, input)?)),
        _ => Ok(None),
    }
}

/// The answer to a line.
fn line_answer(alloc: Global, line: &[u8]) -> Result<Option<String>, AllocError> {
    let Some(blank) = line.iter().position(|byte| *byte == b' ') else {
        return Ok(None);
    };
    let (kind, rest) = line.split_at(blank);
    match rest.strip_prefix(b" ") {
        None => Ok(None),
        Some(b"-") => answer(alloc, kind, b""),
        Some(digits) => match hex::decode(alloc, digits) {
            Ok(input) => answer(alloc, kind, input.as_slice()),
            Err(_) => Ok(None),
        },
    }
}

fn main(rt: HostRuntime) -> anyhow::Result<()> {
    let alloc = rt.alloc();
    for line in io::BufReader::new(alloc, rt.reader())?.lines(alloc) {
        let line = line?;
        match line_answer(alloc, line.as_str().as_bytes())? {
            None => println!(rt; "skip")?,
            Some(text) => println!(rt; "{text}")?,
        }
    }
    Ok(())
}
