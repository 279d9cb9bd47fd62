use sc_base::Text;
use sc_json::read_json;
use sc_query::{Query, of_post};
use std::alloc::{AllocError, Global};

/// A line with what stands before its first blank and behind it; none where it has no blank.
pub fn parted(line: &[u8]) -> Option<(&[u8], &[u8])> {
    let at = line.iter().position(|byte| *byte == b' ')?;
    Some((line.get(..at)?, line.get(at.checked_add(1)?..)?))
}

/// The text of these bytes; none where they aren't UTF-8, or memory is wanting.
pub fn text_of(alloc: Global, bytes: &[u8]) -> Option<Text> {
    let text = std::str::from_utf8(bytes).ok()?;
    Text::from_str(alloc, text).ok()
}

/// A search, and how often it is answered.
#[derive(Drop)]
pub struct Asked {
    pub times: u32,
    pub query: Query,
}

/// The search of a line without its mark; none where it can't be read.
fn search_of(alloc: Global, line: &[u8]) -> Option<Asked> {
    let (times, body) = parted(line)?;
    let times = std::str::from_utf8(times).ok()?.parse::<u32>().ok()?;
    let tree = read_json(alloc, body).ok()?;
    let query = of_post(alloc, &tree).ok()?;
    Some(Asked { times, query })
}

/// The searches of all lines that are searches.
pub fn searches_of(alloc: Global, bytes: &[u8]) -> Result<Vec<Asked>, AllocError> {
    let mut searches = Vec::new(alloc);
    for line in bytes.split(|byte| *byte == b'\n') {
        if let [b'?', b' ', search @ ..] = line {
            if let Some(search) = search_of(alloc, search) {
                searches.push(search)?;
            }
        }
    }
    Ok(searches)
}
