use sc_cqltext::{CqlFault, Filter, read_text};
use sc_eval::{Truth3, eval};
use sc_item::{Item, read_line};
use std::alloc::{AllocError, Global};

/// The two parts of an input, before and behind its first line feed.
pub fn two_lines(input: &[u8]) -> Option<(&[u8], &[u8])> {
    let feed = input.iter().position(|byte| *byte == b'\n')?;
    let (first, rest) = input.split_at(feed);
    let (_, second) = rest.split_first()?;
    Some((first, second))
}

fn truth_word(truth: Truth3) -> &'static str {
    match truth {
        Truth3::True => "True",
        Truth3::False => "False",
        Truth3::Unknown => "Unknown",
    }
}

fn truth_text(alloc: Global, filter: &Filter, item: &Item) -> Result<String, AllocError> {
    let truth = eval(alloc, filter, item)?;
    String::from_str(alloc, truth_word(truth))
}

/// What the filter of a text is of an item; none where the text isn't one.
fn truth_of(alloc: Global, text: &[u8], item: &Item) -> Result<Option<String>, AllocError> {
    match read_text(alloc, text) {
        Ok(filter) => Ok(Some(truth_text(alloc, &filter, item)?)),
        Err(CqlFault::OutOfMemory) => Err(AllocError),
        Err(_) => Ok(None),
    }
}

/// `eval`: an item and a filter's text behind it; what the filter is of the item.
pub fn truth(alloc: Global, input: &[u8]) -> Result<Option<String>, AllocError> {
    let Some((text, filter)) = two_lines(input) else {
        return Ok(None);
    };
    match read_line(alloc, text)? {
        None => Ok(None),
        Some(item) => truth_of(alloc, filter, &item),
    }
}
