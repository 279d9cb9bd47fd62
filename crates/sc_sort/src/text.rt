ghost use Rattle.std.specs.Prelude.{◌≡◌, IfOk};
ghost use Rattle.sc_sort.specs.Sorts.{keys_of_text, sort_of_text, Answers};

use crate::fault::SortFault;
use crate::key::{Key, MOST_KEYS, SortSpec};
use crate::part::{count_keys, first_part, key_of_part};
use sc_base::Text;
use std::alloc::{AllocError, Global};

/// The keys of a text, of which there are so many.
fn keys_of_text(alloc: Global, text: &str, count: usize) -> Result<Vec<Key>, AllocError>
    ensures { IfOk result (λ keys. keys.items ≡ keys_of_text text.now) }
{
    let mut keys = Vec::with_capacity(alloc, count)?;
    let mut left = Some(text);
    while let Some(text) = left {
        let (part, rest) = first_part(text);
        keys.push(key_of_part(alloc, part)?)?;
        left = rest;
    }
    Ok(keys)
}

/// Reads a query's sort (STAC API, Sort extension): 1 to 4 names between commas, each behind `-` for descending, behind
/// `+` or a blank for ascending, or behind no sign, which is ascending too. Only the first byte of a part is a sign.
/// `BadField` where a name is empty, and so where the text is empty; else `TooManyKeys` where there are more than 4.
pub fn read_sort_text(alloc: Global, text: &Text) -> Result<SortSpec, SortFault>
    ensures { Answers result (sort_of_text text.now) }
{
    let text = text.as_str();
    let Some(count) = count_keys(text) else {
        return Err(SortFault::BadField);
    };
    if count > MOST_KEYS {
        let count = count as u64;
        return Err(SortFault::TooManyKeys { count });
    }
    let keys = keys_of_text(alloc, text, count)?;
    Ok(SortSpec::new(keys))
}
