use sc_cut::{Cut, PartName, Text, is_key, key_of, span_of};
use sc_time::read_instant;
use std::alloc::{AllocError, Global};

/// The word in front of a blank as a cut, and what stands behind it.
fn cut_of(input: &[u8]) -> Option<(Cut, &[u8])> {
    let blank = input.iter().position(|byte| *byte == b' ')?;
    let (word, rest) = input.split_at(blank);
    let (_, rest) = rest.split_first()?;
    match word {
        b"whole" => Some((Cut::Whole, rest)),
        b"year" => Some((Cut::Year, rest)),
        b"month" => Some((Cut::Month, rest)),
        _ => None,
    }
}

/// `cut-key`: a cut and an instant with a blank between them; the key of the instant.
pub fn cut_key(alloc: Global, input: &[u8]) -> Result<Option<String>, AllocError> {
    let Some((cut, text)) = cut_of(input) else {
        return Ok(None);
    };
    let Ok(start) = read_instant(text) else {
        return Ok(None);
    };
    let key = key_of(cut, start);
    Ok(Some(format!(in alloc; "ok {key}")?))
}

/// `span`: a cut and a key with a blank between them; the first and the last start with that key.
pub fn span(alloc: Global, input: &[u8]) -> Result<Option<String>, AllocError> {
    let Some((cut, text)) = cut_of(input) else {
        return Ok(None);
    };
    let Ok(text) = std::str::from_utf8(text) else {
        return Ok(None);
    };
    let Ok(key) = text.parse::<i32>() else {
        return Ok(None);
    };
    if !is_key(cut, key) {
        return Ok(None);
    }
    let collection = Text::from_str(alloc, "")?;
    let range = span_of(&PartName {
        collection,
        cut,
        key,
    });
    let (Some(from), Some(to)) = (range.from(), range.to()) else {
        return Ok(None);
    };
    let from = from.nanoseconds();
    let to = to.nanoseconds();
    Ok(Some(format!(in alloc; "ok {from} {to}")?))
}
