ghost use Rattle.std.specs.Prelude.{◌≡◌, IfOk, map};
ghost use Rattle.sc_page.specs.ItemKey.{key_of, values_of};
ghost use Rattle.sc_page.specs.Lent.{lent_value};

use crate::lent::{LentValue, lent_by};
use sc_base::{Seq, Text};
use sc_item::Item;
use sc_sort::{Key, KeyList, SortSpec, SortValue};
use std::alloc::{AllocError, Global};

/// A value of its own.
fn own_value(alloc: Global, value: &LentValue) -> Result<SortValue, AllocError>
    ensures { IfOk result (λ own. own ≡ lent_value value.now) }
{
    match value {
        LentValue::Moment(at) => Ok(SortValue::Moment(*at)),
        LentValue::Number(number) => Ok(SortValue::Number(*number)),
        LentValue::Text(text) => Ok(SortValue::Text(Text::from_str(alloc, text)?)),
        LentValue::Truth(truth) => Ok(SortValue::Truth(*truth)),
        LentValue::Absent => Ok(SortValue::Absent),
    }
}

/// What an item has under each key.
fn values_of(alloc: Global, keys: &[Key], item: &Item) -> Result<Seq<SortValue>, AllocError>
    ensures { IfOk result (λ values. values ≡ values_of keys.now item.now) }
{
    let mut values = Vec::with_capacity(alloc, keys.len())?;
    for key in keys {
        values.push(own_value(alloc, &lent_by(item, &key.name))?)?;
    }
    Ok(Seq::of(values))
}

/// What an item is ordered by under a sort. Under each key it has the value of the key's name: of a text the longest
/// front of whole characters within 128 bytes, and nothing for a shape, a list or an object.
pub fn key_of_item(alloc: Global, sort: &SortSpec, item: &Item) -> Result<KeyList, AllocError>
    ensures { IfOk result (λ key. key ≡ key_of sort.now item.now) }
{
    let values = values_of(alloc, sort.keys(), item)?;
    let collection = item.collection().try_clone(alloc)?;
    let id = item.id().try_clone(alloc)?;
    match KeyList::of(values, collection, id) {
        Some(key) => Ok(key),
        None => unreachable!(),
    }
}
