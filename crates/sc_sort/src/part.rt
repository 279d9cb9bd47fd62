//! The parts of a sort's text, between commas.
ghost use Rattle.std.specs.Prelude.{◌≡◌, ◌∷◌, ◌<◌, [], true, false, length, IfOk, IfSome, MatchOption};
ghost use Rattle.std.specs.List.{list_any};
ghost use Rattle.sc_base.specs.Parts.{parts_between};
ghost use Rattle.sc_sort.specs.Sorts.{key_of_part, keys_of_text, is_unnamed};

use crate::key::Key;
use sc_base::Text;
use std::alloc::{AllocError, Global};

/// The first part of a text between commas, and what stands behind its comma; none where there is no comma.
pub(crate) fn first_part(text: &str) -> (&str, Option<&str>)
    ensures parts { MatchOption result.1
        (parts_between 44 text.now ≡ result.0.now ∷ [])
        (λ rest. parts_between 44 text.now ≡ result.0.now ∷ parts_between 44 rest.now) }
    ensures shorter { IfSome result.1 (λ rest. length rest.now < length text.now) }
{
    match text.split_once(',') {
        Some((part, rest)) => (part, Some(rest)),
        None => (text, None),
    }
}

/// The name behind the sign of a part, and whether the sign is that of down.
fn signed(part: &str) -> (&str, bool)
    ensures { record { name = result.0.now; down = result.1 } ≡ key_of_part part.now }
{
    if let Some(name) = part.strip_prefix('-') {
        (name, true)
    } else if let Some(name) = part.strip_prefix('+') {
        (name, false)
    } else if let Some(name) = part.strip_prefix(' ') {
        (name, false)
    } else {
        (part, false)
    }
}

/// Whether a part has no name.
fn is_unnamed(part: &str) -> bool
    ensures { result ≡ is_unnamed (key_of_part part.now) }
{
    signed(part).0.is_empty()
}

/// The key of a part.
pub(crate) fn key_of_part(alloc: Global, part: &str) -> Result<Key, AllocError>
    ensures { IfOk result (λ key. key ≡ key_of_part part.now) }
{
    let (name, down) = signed(part);
    let name = Text::from_str(alloc, name)?;
    Ok(Key { name, down })
}

/// How many keys a text has; none where one of them has no name.
pub(crate) fn count_keys(text: &str) -> Option<usize>
    ensures { MatchOption result
        (list_any is_unnamed (keys_of_text text.now) ≡ true)
        (λ count. (list_any is_unnamed (keys_of_text text.now) ≡ false) × (count ≡ length (keys_of_text text.now))) }
{
    let mut count = 0;
    let mut left = Some(text);
    while let Some(text) = left {
        let (part, rest) = first_part(text);
        if is_unnamed(part) {
            return None;
        }
        count += 1;
        left = rest;
    }
    Some(count)
}
