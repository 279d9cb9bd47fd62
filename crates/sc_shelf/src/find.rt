//! How an item is found by its collection and its id.
ghost use Rattle.std.specs.Prelude.{◌≡◌, All, option_map};
ghost use Rattle.std.specs.Ordering.{is_lt};
ghost use Rattle.std.specs.Arc.{arc_value};
ghost use Rattle.sc_base.specs.Text.{text_order};
ghost use Rattle.sc_history.specs.Content.{item_in};
ghost use Rattle.sc_history.specs.Part.{AreInOrder};
ghost use Rattle.sc_shelf.specs.Kept.{AreParts, HasItsOwn, all_items};
ghost use Rattle.sc_shelf.specs.Run.{IsRunOf};

use crate::kept::KeptPart;
use sc_base::Text;
use sc_item::Item;
use std::sync::Arc;

/// Whether a part is of an earlier collection.
fn is_early(part: &KeptPart, collection: &Text) -> bool
    ensures { result ≡ is_lt (text_order part.now.name.collection collection.now) }
{
    part.name().collection < *collection
}

/// The parts of a collection, by two binary searches: they stand together, since names go by collection first.
fn run_of<'a>(parts: &'a [KeptPart], collection: &Text) -> &'a [KeptPart]
    requires { AreInOrder parts.now }
    ensures { IsRunOf collection.now parts.now result.now }
{
    let from = parts.partition_point(|part| is_early(part, collection));
    let rest = &parts[from..];
    let count = rest.partition_point(|part| part.is_of(collection));
    &rest[..count]
}

/// The item with the id in these parts of one collection.
fn find_in_run<'a>(run: &'a [KeptPart], collection: &Text, id: &Text) -> Option<&'a Arc<Item>>
    requires of { All (λ part. part.name.collection ≡ collection.now) run.now }
    requires own { All HasItsOwn run.now }
    ensures { option_map (λ item. arc_value item.now) result ≡ item_in (all_items run.now) collection.now id.now }
{
    for part in run {
        if let Some(item) = part.version().find_id(id) {
            return Some(item);
        }
    }
    None
}

/// The collection's item with the id, if there is one.
pub(crate) fn find_item<'a>(
    parts: &'a [KeptPart],
    collection: &Text,
    id: &Text,
) -> Option<&'a Arc<Item>>
    requires { AreParts parts.now }
    ensures { option_map (λ item. arc_value item.now) result ≡ item_in (all_items parts.now) collection.now id.now }
{
    find_in_run(run_of(parts, collection), collection, id)
}
