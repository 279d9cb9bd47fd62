//! Items that no page asks for which begins at a place, since they start before it or behind it, are left out by halving.
ghost use Rattle.std.specs.Prelude.{◌≡◌, Some, true};
ghost use Rattle.sc_page.specs.Leading.{AreLatestFirst, is_earliest_first, is_latest_first};
ghost use Rattle.sc_page.specs.Placing.{moment_of, LeavesOut};
ghost use Rattle.sc_page.specs.Search.{shared};

use crate::order::compare_instants;
use crate::search::Search;
use crate::starts::{is_earliest_first, is_latest_first};
use sc_item::Item;
use sc_sort::SortValue;
use sc_time::Instant;
use std::sync::Arc;

/// The moment with which the place begins at which the page of a search begins, where it begins with one.
fn moment_of(search: &Search) -> Option<Instant>
    ensures { result ≡ moment_of search.now.after }
{
    match search.after()?.values().first()? {
        SortValue::Moment(at) => Some(*at),
        _ => None,
    }
}

/// The items without those at the front that start after a moment, at which the page begins.
fn without_later<'i>(search: &Search, items: &'i [Arc<Item>], at: Instant) -> &'i [Arc<Item>]
    requires latest { AreLatestFirst (shared items.now) }
    requires sort { is_latest_first search.now.sort ≡ true }
    requires begins { moment_of search.now.after ≡ Some at }
    ensures left { LeavesOut search.now (shared items.now) (shared result.now) }
    ensures latest { AreLatestFirst (shared result.now) }
{
    let count = items.partition_point(|item| compare_instants(item.start(), at).is_gt());
    &items[count..]
}

/// The items without those at the end that start before a moment, at which the page begins.
fn without_earlier<'i>(search: &Search, items: &'i [Arc<Item>], at: Instant) -> &'i [Arc<Item>]
    requires latest { AreLatestFirst (shared items.now) }
    requires sort { is_earliest_first search.now.sort ≡ true }
    requires begins { moment_of search.now.after ≡ Some at }
    ensures left { LeavesOut search.now (shared items.now) (shared result.now) }
    ensures latest { AreLatestFirst (shared result.now) }
{
    let count = items.partition_point(|item| compare_instants(item.start(), at).is_ge());
    &items[..count]
}

/// The items, which stand by their starts, the latest first, without some that a search doesn't ask for, since they come
/// before the place at which its page begins.
pub(crate) fn from_place<'i>(search: &Search, items: &'i [Arc<Item>]) -> &'i [Arc<Item>]
    requires { AreLatestFirst (shared items.now) }
    ensures left { LeavesOut search.now (shared items.now) (shared result.now) }
    ensures latest { AreLatestFirst (shared result.now) }
{
    match moment_of(search) {
        Some(at) if is_latest_first(search.sort()) => without_later(search, items, at),
        Some(at) if is_earliest_first(search.sort()) => without_earlier(search, items, at),
        _ => items,
    }
}
