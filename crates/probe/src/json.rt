use sc_json::{JsonFault, push_json, read_json};
use std::alloc::{AllocError, Global};

/// `json`: a text, read and written back.
pub fn json(alloc: Global, input: &[u8]) -> Result<String, AllocError> {
    match read_json(alloc, input) {
        Ok(tree) => {
            let mut text = String::from_str(alloc, "ok ")?;
            push_json(&mut text, &tree)?;
            Ok(text)
        }
        Err(JsonFault::Syntax { at }) => format!(in alloc; "fault Syntax {at}"),
        Err(JsonFault::Duplicate { at }) => format!(in alloc; "fault Duplicate {at}"),
        Err(JsonFault::TooDeep { at }) => format!(in alloc; "fault TooDeep {at}"),
        Err(JsonFault::NumberTooWide { at }) => format!(in alloc; "fault NumberTooWide {at}"),
        Err(JsonFault::NotUtf8 { at }) => format!(in alloc; "fault NotUtf8 {at}"),
        Err(JsonFault::OutOfMemory) => String::from_str(alloc, "fault OutOfMemory"),
    }
}
