use crate::meanings::two_lines;
use sc_item::{Item, Text, read_line};
use sc_page::key_of_item;
use sc_sort::{KeyList, SortFault, SortSpec, read_sort_text};
use sc_token::write_token;
use std::alloc::{AllocError, Global};

/// The sort of a text; none where it isn't one.
fn sort_of(alloc: Global, text: &[u8]) -> Result<Option<SortSpec>, AllocError> {
    let Some(text) = Text::of(alloc, text)? else {
        return Ok(None);
    };
    match read_sort_text(alloc, &text) {
        Ok(sort) => Ok(Some(sort)),
        Err(SortFault::OutOfMemory) => Err(AllocError),
        Err(_) => Ok(None),
    }
}

/// Adds the list that a key list's token is the digits of.
pub fn push_keys(out: &mut String, alloc: Global, keys: &KeyList) -> Result<(), AllocError> {
    let token = write_token(alloc, keys)?;
    match hex::decode(alloc, token.bytes()) {
        Ok(list) => {
            let list = String::from_utf8_lossy(alloc, list.as_slice())?;
            out.push_str(list.as_str())
        }
        Err(_) => Err(AllocError),
    }
}

fn keys_text(alloc: Global, sort: &SortSpec, item: &Item) -> Result<String, AllocError> {
    let mut text = String::from_str(alloc, "ok ")?;
    push_keys(&mut text, alloc, &key_of_item(alloc, sort, item)?)?;
    Ok(text)
}

/// `key`: a sort's text and an item behind it; the list of what the item is ordered by.
pub fn key(alloc: Global, input: &[u8]) -> Result<Option<String>, AllocError> {
    let Some((sort, text)) = two_lines(input) else {
        return Ok(None);
    };
    let Some(sort) = sort_of(alloc, sort)? else {
        return Ok(None);
    };
    match read_line(alloc, text)? {
        None => Ok(None),
        Some(item) => Ok(Some(keys_text(alloc, &sort, &item)?)),
    }
}
