//! Elements of a list as values under the keys of a sort.
ghost use Rattle.std.specs.Prelude.{◌≡◌, ◌+◌, true, false, IfOk, length};
ghost use Rattle.sc_sort.specs.Spec.{is_of_time};
ghost use Rattle.sc_token.specs.Steps.{ReadsValue, ReadsName, ReadsKeys, AddsValues};

use crate::moment::instant_of;
use sc_json::Json;
use sc_sort::{Key, KeyList, Seq, SortSpec, SortValue, Text};
use std::alloc::{AllocError, Global};

/// The most bytes of a collection and of an id.
const LONGEST_NAME: usize = 256;

/// The moment of a number of nanoseconds.
fn moment_of(tree: &Json) -> Option<SortValue>
    ensures { ReadsValue true tree.now result }
{
    match tree {
        Json::Number(number) => match instant_of(number.literal.as_str()) {
            Some(at) => Some(SortValue::Moment(at)),
            None => None,
        },
        _ => None,
    }
}

/// The value of any other element.
fn scalar_of(alloc: Global, tree: &Json) -> Result<Option<SortValue>, AllocError>
    ensures { IfOk result (ReadsValue false tree.now) }
{
    match tree {
        Json::Null => Ok(Some(SortValue::Absent)),
        Json::Truth(truth) => Ok(Some(SortValue::Truth(*truth))),
        Json::Number(number) => Ok(Some(SortValue::Number(number.dec))),
        Json::Text(text) => Ok(Some(SortValue::Text(text.try_clone(alloc)?))),
        Json::List(_) => Ok(None),
        Json::Object(_) => Ok(None),
    }
}

/// The value of an element under a key.
fn value_of(alloc: Global, key: &Key, tree: &Json) -> Result<Option<SortValue>, AllocError>
    ensures { IfOk result (ReadsValue (is_of_time key.now) tree.now) }
{
    if key.is_of_time() {
        Ok(moment_of(tree))
    } else {
        scalar_of(alloc, tree)
    }
}

/// Adds the values of the elements under the keys; tells whether each element stands for one.
fn add_values(
    alloc: Global,
    keys: &[Key],
    trees: &[Json],
    values: &mut Vec<SortValue>,
) -> Result<bool, AllocError>
    requires { length keys.now ≡ length trees.now }
    ensures { IfOk result (λ added. AddsValues added keys.now trees.now values.old.items values.new.items) }
{
    match (keys.split_first(), trees.split_first()) {
        (Some((key, keys)), Some((tree, trees))) => match value_of(alloc, key, tree)? {
            Some(value) => {
                values.push(value)?;
                add_values(alloc, keys, trees, values)
            }
            None => Ok(false),
        },
        _ => Ok(true),
    }
}

/// The text of a collection or an id.
fn name_of(alloc: Global, tree: &Json) -> Result<Option<Text>, AllocError>
    ensures { IfOk result (ReadsName tree.now) }
{
    match tree {
        Json::Text(text) if 1 <= text.len() && text.len() <= LONGEST_NAME => Ok(Some(text.try_clone(
            alloc,
        )?)),
        _ => Ok(None),
    }
}

/// The key list of the elements of a list, where they may stand for one that fits the sort.
pub(crate) fn keys_of(
    alloc: Global,
    sort: &SortSpec,
    elements: &[Json],
) -> Result<Option<KeyList>, AllocError>
    requires { length elements.now ≡ length sort.now + 2 }
    ensures { IfOk result (ReadsKeys sort.now elements.now) }
{
    let keys = sort.keys();
    let (trees, names) = elements.split_at(keys.len());
    let mut values = Vec::with_capacity(alloc, keys.len())?;
    if !add_values(alloc, keys, trees, &mut values)? {
        return Ok(None);
    }
    let Some(collection) = name_of(alloc, &names[0])? else {
        return Ok(None);
    };
    let Some(id) = name_of(alloc, &names[1])? else {
        return Ok(None);
    };
    Ok(KeyList::of(Seq::of(values), collection, id))
}
