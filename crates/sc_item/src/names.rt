ghost use Rattle.std.specs.Prelude.{◌≡◌, IfOk, MatchOption};
ghost use Rattle.sc_item.specs.Names.{AreApart, IsFirstRepeat};

use crate::item::Item;
use std::alloc::{AllocError, Global};
use std::collections::HashSet;

/// The name of an item, lent by it.
#[derive(Clone, Copy, Debug, PartialEq, Eq, Hash)]
struct Name<'a> {
    collection: &'a str,
    id: &'a str,
}

fn name_of(item: &Item) -> Name<'_>
    ensures collection { result.collection.now ≡ item.now.collection }
    ensures id { result.id.now ≡ item.now.id }
{
    Name {
        collection: item.collection().as_str(),
        id: item.id().as_str(),
    }
}

/// The place of the first item whose name an item before it has, or none where no two have one name.
/// It takes the time of one look-up an item.
pub fn first_repeat(alloc: Global, items: &[Item]) -> Result<Option<usize>, AllocError>
    ensures { IfOk result (λ found. MatchOption found (AreApart items.now) (IsFirstRepeat items.now)) }
{
    let mut names = HashSet::with_capacity(alloc, items.len())?;
    for (place, item) in items.iter().enumerate() {
        let new = names.insert(name_of(item))?;
        if !new {
            return Ok(Some(place));
        }
    }
    Ok(None)
}
