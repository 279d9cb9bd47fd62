use sc_gen::generate;
use sc_load::Load;
use std::alloc::{AllocError, Global};

/// The most items of a load.
const MOST_ITEMS: u32 = 10_000;

/// A seed, a load's number and a count.
struct Asked {
    seed: u64,
    load: u32,
    count: u32,
}

/// What three numbers with a blank between them ask for.
fn numbers_of(input: &[u8]) -> Option<Asked> {
    let text = std::str::from_utf8(input).ok()?;
    let (seed, rest) = text.split_once(' ')?;
    let (load, count) = rest.split_once(' ')?;
    let seed = seed.parse::<u64>().ok()?;
    let load = load.parse::<u32>().ok()?;
    let count = count.parse::<u32>().ok()?;
    Some(Asked { seed, load, count })
}

/// The documents of a load's items, with commas between them.
fn documents(alloc: Global, load: &Load) -> Result<String, AllocError> {
    let mut text = String::from_str(alloc, "ok [")?;
    for (place, item) in load.items().iter().enumerate() {
        if place > 0 {
            text.push(',')?;
        }
        text.push_str(item.doc().as_str())?;
    }
    text.push(']')?;
    Ok(text)
}

/// `generate`: a seed, a load's number and a count with a blank between two; the documents of the load's items.
pub fn generated(alloc: Global, input: &[u8]) -> Result<Option<String>, AllocError> {
    let Some(Asked { seed, load, count }) = numbers_of(input) else {
        return Ok(None);
    };
    if count > MOST_ITEMS {
        return Ok(None);
    }
    let load = generate(alloc, seed, load, count)?;
    Ok(Some(documents(alloc, &load)?))
}
