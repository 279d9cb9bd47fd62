ghost use Rattle.std.specs.Prelude.{◌≡◌, All, List, map, IsPermutation};
ghost use Rattle.sc_item.specs.Feature.{Feature, IsKept};
ghost use Rattle.sc_bounds.specs.Sets.{IsHull, hull};
ghost use Rattle.sc_part.specs.Scan.{after, reach, shared};

use sc_base::Text;
use sc_bounds::{Bounds, Reach, join, widen};
use sc_item::Item;
use std::sync::Arc;

/// Where an item lies in time and space.
pub fn reach_of(item: &Item) -> Reach
    ensures reach { result ≡ reach item.now }
    ensures kept { IsKept item.now }
{
    Reach {
        start: item.start(),
        end: item.end(),
        place: item.place(),
    }
}

/// The smallest bounds that cover the reaches of all items, each of which keeps what items keep; those of no item are
/// empty. Takes no memory.
pub fn hull_of_items(items: &[Arc<Item>]) -> Bounds
    ensures hull { IsHull result (map reach (shared items.now)) }
    ensures value { result ≡ hull (map reach (shared items.now)) }
    ensures kept { All IsKept (shared items.now) }
{
    let mut bounds = Bounds::empty();
    for item in items {
        bounds = widen(&bounds, &reach_of(item));
    }
    bounds
}

/// The hull of the items of a version, out of that of an older version's and of what went and came.
pub(crate) fn hull_after(
    before: &Bounds,
    gone: &[Text],
    come: &[Arc<Item>],
    items: &[Arc<Item>],
) -> Bounds
    ensures hull { (old : List Feature) → IsHull before.now (map reach old) → IsPermutation (after gone.now (shared come.now) old) (shared items.now) → IsHull result (map reach (shared items.now)) }
    ensures kept { (old : List Feature) → All IsKept old → IsPermutation (after gone.now (shared come.now) old) (shared items.now) → All IsKept (shared items.now) }
{
    // Without those that went the hull may be smaller, which only the others tell.
    if gone.is_empty() {
        join(before, &hull_of_items(come))
    } else {
        hull_of_items(items)
    }
}
