//! Answers single questions about filters and searches, for the repository's own tests.
//!
//! Standard input has lines `KIND HEX`, HEX being the input's bytes in hexadecimal digits, `-` for none. Each gets one
//! line of answer. A kind that isn't known, and an input that isn't of its kind's outer shape, answers `skip`.
#![tactic(auto)]

mod faults;
mod filters;
mod geometries;
mod keys;
mod lists;
mod meanings;
mod queries;

use std::alloc::{AllocError, Global};
use std::io;
use std::io::BufRead;

/// The answer to an input of a kind; none where it has none.
fn answer(alloc: Global, kind: &[u8], input: &[u8]) -> Result<Option<String>, AllocError> {
    match kind {
        b"cql-text" => Ok(Some(filters::cql_text(alloc, input)?)),
        b"cql-tree" => Ok(Some(filters::cql_tree(alloc, input)?)),
        b"eval" => meanings::truth(alloc, input),
        b"key" => keys::key(alloc, input),
        b"query-get" => queries::query_get(alloc, input),
        b"query-post" => Ok(Some(queries::query_post(alloc, input)?)),
        _ => Ok(None),
    }
}

/// The answer to a line.
fn line_answer(alloc: Global, line: &[u8]) -> Result<Option<String>, AllocError> {
    let Some(blank) = line.iter().position(|byte| *byte == b' ') else {
        return Ok(None);
    };
    let (kind, rest) = line.split_at(blank);
    match rest.strip_prefix(b" ") {
        None => Ok(None),
        Some(b"-") => answer(alloc, kind, b""),
        Some(digits) => match hex::decode(alloc, digits) {
            Ok(input) => answer(alloc, kind, input.as_slice()),
            Err(_) => Ok(None),
        },
    }
}

fn main(rt: HostRuntime) -> anyhow::Result<()> {
    let alloc = rt.alloc();
    for line in io::BufReader::new(alloc, rt.reader())?.lines(alloc) {
        let line = line?;
        match line_answer(alloc, line.as_str().as_bytes())? {
            None => println!(rt; "skip")?,
            Some(text) => println!(rt; "{text}")?,
        }
    }
    Ok(())
}
