ghost use Rattle.std.specs.Prelude.{◌≡◌, ◌==◌, ◌||◌, length, IfOk, map};
ghost use Rattle.std.specs.List.{list_any};
ghost use Rattle.std.specs.Option.{option_copied};
ghost use Rattle.sc_sort.specs.Sorts.{elements_of, name_of, field_of, is_down_word, direction_of, key_of, has_no_name, has_no_direction, sort_of_tree, Answers};

use crate::fault::SortFault;
use crate::key::{Key, MOST_KEYS, SortSpec};
use crate::words::{ascending_word, descending_word, direction_name, field_name};
use sc_base::Text;
use sc_json::Json;
use std::alloc::{AllocError, Global};

/// The elements of a list; none of any other tree.
#[tactic(auto, unfolding(crate::specs::Sorts::elements_of))]
fn elements_of(tree: &Json) -> &[Json]
    ensures { result.now ≡ elements_of tree.now }
{
    match tree {
        Json::List(elements) => elements.as_slice(),
        _ => &[],
    }
}

/// The text that a tree is, where it has a byte.
#[tactic(auto, unfolding(crate::specs::Sorts::name_of))]
fn name_of(tree: &Json) -> Option<&Text>
    ensures { option_copied result ≡ name_of tree.now }
{
    match tree {
        Json::Text(text) if !text.is_empty() => Some(text),
        _ => None,
    }
}

/// The name of an object's key.
#[tactic(auto, unfolding(crate::specs::Sorts::field_of))]
fn field_of(tree: &Json) -> Option<&Text>
    ensures { option_copied result ≡ field_of tree.now }
{
    match tree.member(field_name()) {
        Some(value) => name_of(value),
        None => None,
    }
}

/// Whether a word is that of down; none where it is none of the two.
#[tactic(auto, unfolding(crate::specs::Sorts::is_down_word))]
fn is_down_word(word: &str) -> Option<bool>
    ensures { result ≡ is_down_word word.now }
{
    if word == ascending_word() {
        Some(false)
    } else if word == descending_word() {
        Some(true)
    } else {
        None
    }
}

/// Whether an object's key is down; none where its direction is none of the two.
#[tactic(auto, unfolding(crate::specs::Sorts::direction_of))]
fn direction_of(tree: &Json) -> Option<bool>
    ensures { result ≡ direction_of tree.now }
{
    match tree.member(direction_name()) {
        Some(Json::Text(word)) => is_down_word(word.as_str()),
        Some(_) => None,
        None => Some(false),
    }
}

/// The key of an object with a name and a direction.
#[tactic(auto, unfolding(crate::specs::Sorts::key_of))]
fn key_of(alloc: Global, tree: &Json) -> Result<Key, AllocError>
    ensures { IfOk result (λ key. key ≡ key_of tree.now) }
{
    let name = match field_of(tree) {
        Some(name) => name.try_clone(alloc)?,
        None => Text::from_str(alloc, "")?,
    };
    let down = direction_of(tree).unwrap_or(false);
    Ok(Key { name, down })
}

/// The keys of objects with a name and a direction.
fn keys_of(alloc: Global, trees: &[Json]) -> Result<Vec<Key>, AllocError>
    ensures { IfOk result (λ keys. keys.items ≡ map key_of trees.now) }
{
    let mut keys = Vec::with_capacity(alloc, trees.len())?;
    for tree in trees {
        keys.push(key_of(alloc, tree)?)?;
    }
    Ok(keys)
}

/// Whether a key has no name.
fn has_unnamed(trees: &[Json]) -> bool
    ensures { result ≡ list_any has_no_name trees.now }
{
    trees.iter().any(|tree| field_of(tree).is_none())
}

/// Whether there are no keys, or one has no name.
fn has_bad_field(trees: &[Json]) -> bool
    ensures { result ≡ ((length trees.now == 0) || list_any has_no_name trees.now) }
{
    trees.is_empty() || has_unnamed(trees)
}

/// Whether a key has a direction that is none of the two.
fn has_bad_direction(trees: &[Json]) -> bool
    ensures { result ≡ list_any has_no_direction trees.now }
{
    trees.iter().any(|tree| direction_of(tree).is_none())
}

/// Reads the sort of a search's body (STAC API, Sort extension): a list of 1 to 4 objects with a text `field` that isn't
/// empty and, where it is there, a `direction` of `asc` or `desc`. Without one the key is ascending. The first that holds
/// is answered: `BadField` where the tree is no list of such objects, `BadDirection` where a direction is neither of the
/// two, `TooManyKeys` where there are more than 4.
pub fn read_sort_tree(alloc: Global, tree: &Json) -> Result<SortSpec, SortFault>
    ensures { Answers result (sort_of_tree tree.now) }
{
    let trees = elements_of(tree);
    if has_bad_field(trees) {
        return Err(SortFault::BadField);
    }
    if has_bad_direction(trees) {
        return Err(SortFault::BadDirection);
    }
    if trees.len() > MOST_KEYS {
        let count = trees.len() as u64;
        return Err(SortFault::TooManyKeys { count });
    }
    let keys = keys_of(alloc, trees)?;
    Ok(SortSpec::new(keys))
}
