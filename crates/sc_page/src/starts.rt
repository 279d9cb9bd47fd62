ghost use Rattle.std.specs.Prelude.{◌≡◌, option_map};
ghost use Rattle.std.specs.Arc.{arc_value};
ghost use Rattle.sc_page.specs.Leading.{is_earliest_first, is_latest_first, starts_after, starts_before};

use crate::order::compare_instants;
use sc_item::Item;
use sc_sort::SortSpec;
use std::sync::Arc;

/// Whether a sort begins with the time, the latest first.
pub(crate) fn is_latest_first(sort: &SortSpec) -> bool
    ensures { result ≡ is_latest_first sort.now }
{
    match sort.keys().split_first() {
        None => false,
        Some((key, _)) => key.is_of_time() && key.down,
    }
}

/// Whether a sort begins with the time, the earliest first.
pub(crate) fn is_earliest_first(sort: &SortSpec) -> bool
    ensures { result ≡ is_earliest_first sort.now }
{
    match sort.keys().split_first() {
        None => false,
        Some((key, _)) => key.is_of_time() && !key.down,
    }
}

/// Whether an item starts before the last of the first items, where they are as many as are kept.
pub(crate) fn starts_before(last: Option<&Arc<Item>>, item: &Item) -> bool
    ensures { result ≡ starts_before (option_map (λ i. arc_value i.now) last.entry) item.now }
{
    match last {
        None => false,
        Some(last) => compare_instants(item.start(), last.start()).is_lt(),
    }
}

/// Whether an item starts after the last of the first items, where they are as many as are kept.
pub(crate) fn starts_after(last: Option<&Arc<Item>>, item: &Item) -> bool
    ensures { result ≡ starts_after (option_map (λ i. arc_value i.now) last.entry) item.now }
{
    match last {
        None => false,
        Some(last) => compare_instants(item.start(), last.start()).is_gt(),
    }
}
