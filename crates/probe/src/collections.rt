use sc_json::{push_json, push_quoted, read_json};
use sc_load::{Cut, Load, PrepareFault, prepare_collection};
use std::alloc::{AllocError, Global};

fn cut_word(cut: Cut) -> &'static str {
    match cut {
        Cut::Whole => "whole",
        Cut::Year => "year",
        Cut::Month => "month",
    }
}

/// `collection`: a collection's document; its id, its cut, its named numbers, of which there are none, and its tree.
pub fn collection(alloc: Global, input: &[u8]) -> Result<Option<String>, AllocError> {
    let Ok(tree) = read_json(alloc, input) else {
        return Ok(Some(String::from_str(alloc, "fault Json")?));
    };
    match prepare_collection(alloc, tree) {
        Ok(Load::AddCollection { id, cut, tree }) => {
            let mut text = String::from_str(alloc, "ok ")?;
            push_quoted(&mut text, id.as_str())?;
            text.push_str(" ")?;
            text.push_str(cut_word(cut))?;
            text.push_str(" [] ")?;
            push_json(&mut text, &tree)?;
            Ok(Some(text))
        }
        Err(PrepareFault::BadCollection) => {
            Ok(Some(String::from_str(alloc, "fault BadCollection")?))
        }
        _ => Err(AllocError),
    }
}
