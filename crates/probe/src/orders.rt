use crate::item::two_lines;
use sc_json::{Json, push_quoted, read_json};
use sc_sort::{
    Instant, Key, KeyList, Seq, SortFault, SortSpec, SortValue, Text, compare_keys, read_sort_text,
    read_sort_tree,
};
use sc_token::{TokenFault, read_token, write_token};
use std::alloc::{AllocError, Global};
use std::cmp::Ordering;

fn sort_fault_text(alloc: Global, fault: SortFault) -> Result<String, AllocError> {
    match fault {
        SortFault::BadField => String::from_str(alloc, "fault BadField"),
        SortFault::BadDirection => String::from_str(alloc, "fault BadDirection"),
        SortFault::TooManyKeys { count } => format!(in alloc; "fault TooManyKeys {count}"),
        SortFault::OutOfMemory => Err(AllocError),
    }
}

fn sort_answer(alloc: Global, read: Result<SortSpec, SortFault>) -> Result<String, AllocError> {
    let sort = match read {
        Ok(sort) => sort,
        Err(fault) => return sort_fault_text(alloc, fault),
    };
    let mut text = String::from_str(alloc, "ok ")?;
    for key in sort.keys() {
        text.push(if key.down { '-' } else { '+' })?;
        push_quoted(&mut text, key.name.as_str())?;
    }
    Ok(text)
}

/// `sort-text`: a query's sort.
pub fn sort_text(alloc: Global, input: &[u8]) -> Result<Option<String>, AllocError> {
    let Some(text) = Text::of(alloc, input)? else {
        return Ok(None);
    };
    Ok(Some(sort_answer(alloc, read_sort_text(alloc, &text))?))
}

/// `sort-tree`: the sort of a search's body.
pub fn sort_tree(alloc: Global, input: &[u8]) -> Result<Option<String>, AllocError> {
    let Ok(tree) = read_json(alloc, input) else {
        return Ok(Some(String::from_str(alloc, "fault Json")?));
    };
    Ok(Some(sort_answer(alloc, read_sort_tree(alloc, &tree))?))
}

/// The sort of a query's text; none where it is none.
fn sort_of(alloc: Global, text: &[u8]) -> Result<Option<SortSpec>, AllocError> {
    let Some(text) = Text::of(alloc, text)? else {
        return Ok(None);
    };
    match read_sort_text(alloc, &text) {
        Ok(sort) => Ok(Some(sort)),
        Err(SortFault::OutOfMemory) => Err(AllocError),
        Err(_) => Ok(None),
    }
}

/// The list of which a token has the digits.
fn list_text(alloc: Global, token: &[u8]) -> Result<String, AllocError> {
    match hex::decode(alloc, token) {
        Ok(list) => String::from_utf8_lossy(alloc, list.as_slice()),
        Err(_) => Err(AllocError),
    }
}

fn token_fault_text(alloc: Global, fault: TokenFault) -> Result<String, AllocError> {
    match fault {
        TokenFault::NotHex => String::from_str(alloc, "fault NotHex"),
        TokenFault::NotAList => String::from_str(alloc, "fault NotAList"),
        TokenFault::WrongCount { count } => format!(in alloc; "fault WrongCount {count}"),
        TokenFault::WrongKind => String::from_str(alloc, "fault WrongKind"),
        TokenFault::OutOfMemory => Err(AllocError),
    }
}

/// `token`: a sort and a token behind it, read under the sort.
pub fn token(alloc: Global, input: &[u8]) -> Result<Option<String>, AllocError> {
    let Some((first, token)) = two_lines(input) else {
        return Ok(None);
    };
    let Some(sort) = sort_of(alloc, first)? else {
        return Ok(None);
    };
    let text = match read_token(alloc, &sort, token) {
        Err(fault) => token_fault_text(alloc, fault)?,
        Ok(keys) => {
            let list = list_text(alloc, write_token(alloc, &keys)?.bytes())?;
            format!(in alloc; "ok {list}")?
        }
    };
    Ok(Some(text))
}

/// The value under a key that an element stands for, a number by its value.
fn value_of(alloc: Global, key: &Key, tree: &Json) -> Result<Option<SortValue>, AllocError> {
    let value = match tree {
        Json::Null => SortValue::Absent,
        Json::Truth(truth) => SortValue::Truth(*truth),
        Json::Text(text) => SortValue::Text(text.try_clone(alloc)?),
        Json::Number(number) if key.is_of_time() => {
            let Ok(nanoseconds) = number.literal.as_str().parse::<i128>() else {
                return Ok(None);
            };
            let Some(at) = Instant::of(nanoseconds) else {
                return Ok(None);
            };
            return Ok(Some(SortValue::Moment(at)));
        }
        Json::Number(number) => SortValue::Number(number.dec),
        Json::List(_) | Json::Object(_) => return Ok(None),
    };
    Ok(if key.is_of_time() { None } else { Some(value) })
}

/// A text of 1 to 256 bytes.
fn name_of(alloc: Global, tree: Option<&Json>) -> Result<Option<Text>, AllocError> {
    match tree {
        Some(Json::Text(text)) if 1 <= text.len() && text.len() <= 256 => {
            Ok(Some(text.try_clone(alloc)?))
        }
        _ => Ok(None),
    }
}

/// The key list that the elements stand for under a sort; none where they stand for none that fits.
fn keys_of(
    alloc: Global,
    sort: &SortSpec,
    elements: &[Json],
) -> Result<Option<KeyList>, AllocError> {
    let keys = sort.keys();
    let mut values = Vec::with_capacity(alloc, keys.len())?;
    for (key, tree) in keys.iter().zip(elements) {
        let Some(value) = value_of(alloc, key, tree)? else {
            return Ok(None);
        };
        values.push(value)?;
    }
    if elements.len() != keys.len() + 2 {
        return Ok(None);
    }
    let Some(collection) = name_of(alloc, elements.get(keys.len()))? else {
        return Ok(None);
    };
    let Some(id) = name_of(alloc, elements.get(keys.len() + 1))? else {
        return Ok(None);
    };
    Ok(KeyList::of(Seq::of(values), collection, id))
}

/// `token-write`: a sort and a JSON list behind it; the token of the key list that the list stands for.
pub fn token_write(alloc: Global, input: &[u8]) -> Result<Option<String>, AllocError> {
    let Some((first, list)) = two_lines(input) else {
        return Ok(None);
    };
    let Some(sort) = sort_of(alloc, first)? else {
        return Ok(None);
    };
    let Ok(Json::List(elements)) = read_json(alloc, list) else {
        return Ok(None);
    };
    match keys_of(alloc, &sort, elements.as_slice())? {
        None => Ok(Some(String::from_str(alloc, "none")?)),
        Some(keys) => Ok(Some(write_token(alloc, &keys)?.into_string())),
    }
}

/// The key list of a token; none where it is none under the sort.
fn keys_of_token(
    alloc: Global,
    sort: &SortSpec,
    token: &[u8],
) -> Result<Option<KeyList>, AllocError> {
    match read_token(alloc, sort, token) {
        Ok(keys) => Ok(Some(keys)),
        Err(TokenFault::OutOfMemory) => Err(AllocError),
        Err(_) => Ok(None),
    }
}

/// `key-order`: a sort and two tokens behind it; which of their key lists comes first.
pub fn key_order(alloc: Global, input: &[u8]) -> Result<Option<String>, AllocError> {
    let Some((first, rest)) = two_lines(input) else {
        return Ok(None);
    };
    let (Some(sort), Some((one, other))) = (sort_of(alloc, first)?, two_lines(rest)) else {
        return Ok(None);
    };
    let Some(one) = keys_of_token(alloc, &sort, one)? else {
        return Ok(None);
    };
    let Some(other) = keys_of_token(alloc, &sort, other)? else {
        return Ok(None);
    };
    let word = match compare_keys(&sort, &one, &other) {
        Ordering::Less => "less",
        Ordering::Equal => "equal",
        Ordering::Greater => "greater",
    };
    Ok(Some(String::from_str(alloc, word)?))
}
