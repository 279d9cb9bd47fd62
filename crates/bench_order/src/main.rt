//! Times sorting key lists, over lines of a token and, behind a blank, the digits of a byte string that stands in the same
//! order, which come on standard input.
//!
//! It prints `KEYS READ SORT BYTES WRITE CHECK`: the number of key lists, the microseconds that reading all tokens under
//! the sort `-datetime,eo:cloud_cover`, sorting the key lists, sorting the byte strings, and writing all tokens took, and a
//! number that depends on all of it.
#![tactic(auto)]

use sc_sort::{KeyList, SortSpec, Text, compare_keys, read_sort_text};
use sc_token::{read_token, write_token};
use std::alloc::{AllocError, Global};
use std::io::Read;
use std::time::Instant;

/// The part of a line before its blank, and the part behind it.
fn parts(line: &[u8]) -> Option<(&[u8], &[u8])> {
    let blank = line.iter().position(|byte| *byte == b' ')?;
    let (first, rest) = line.split_at(blank);
    let (_, second) = rest.split_first()?;
    Some((first, second))
}

fn read_keys(
    alloc: Global,
    sort: &SortSpec,
    bytes: &[u8],
    keys: &mut Vec<KeyList>,
) -> Result<(), AllocError> {
    for line in bytes.split(|byte| *byte == b'\n') {
        if let Some((token, _)) = parts(line) {
            if let Ok(key) = read_token(alloc, sort, token) {
                keys.push(key)?;
            }
        }
    }
    Ok(())
}

fn read_texts(alloc: Global, bytes: &[u8], texts: &mut Vec<Vec<u8>>) -> Result<(), AllocError> {
    for line in bytes.split(|byte| *byte == b'\n') {
        if let Some((_, digits)) = parts(line) {
            if let Ok(text) = hex::decode(alloc, digits) {
                texts.push(text)?;
            }
        }
    }
    Ok(())
}

fn sort_keys(sort: &SortSpec, keys: &mut Vec<KeyList>) -> Result<(), AllocError> {
    keys.sort_by(|a, b| compare_keys(sort, a, b))
}

fn write_all(alloc: Global, keys: &[KeyList]) -> Result<u64, AllocError> {
    let mut length: u64 = 0;
    for key in keys {
        let token = write_token(alloc, key)?;
        length = length.wrapping_add(token.len() as u64);
    }
    Ok(length)
}

/// The number of places at which the id of a key list ends the byte string.
fn agreeing(keys: &[KeyList], texts: &[Vec<u8>]) -> u64 {
    let mut count: u64 = 0;
    for (key, text) in keys.iter().zip(texts) {
        if text.ends_with(key.id().bytes()) {
            count = count.wrapping_add(1);
        }
    }
    count
}

fn main(rt: HostRuntime) -> anyhow::Result<()> {
    let alloc = rt.alloc();
    let mut bytes = Vec::new(alloc);
    rt.reader().read_to_end(&mut bytes)?;
    let names = Text::from_str(alloc, "-datetime,eo:cloud_cover")?;
    let Ok(sort) = read_sort_text(alloc, &names) else {
        return Ok(());
    };
    // Nothing is measured of nothing.
    if bytes.is_empty() {
        return Ok(());
    }
    let mut keys = Vec::new(alloc);
    let mut texts = Vec::new(alloc);
    read_texts(alloc, bytes.as_slice(), &mut texts)?;

    let start = Instant::now(&rt)?;
    read_keys(alloc, &sort, bytes.as_slice(), &mut keys)?;
    let reading = start.elapsed(&rt)?.as_micros();
    let start = Instant::now(&rt)?;
    sort_keys(&sort, &mut keys)?;
    let sorting = start.elapsed(&rt)?.as_micros();
    let start = Instant::now(&rt)?;
    texts.sort()?;
    let yardstick = start.elapsed(&rt)?.as_micros();
    let start = Instant::now(&rt)?;
    let length = write_all(alloc, keys.as_slice())?;
    let writing = start.elapsed(&rt)?.as_micros();

    let count = keys.len();
    let check = length.wrapping_add(agreeing(keys.as_slice(), texts.as_slice()));
    println!(rt; "{count} {reading} {sorting} {yardstick} {writing} {check}")?;
    Ok(())
}
