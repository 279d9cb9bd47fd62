ghost use Rattle.std.specs.Prelude.{◌≡◌};
ghost use Rattle.std.specs.Ordering.{int_cmp};
ghost use Rattle.sc_item.specs.Feature.{Feature};
ghost use Rattle.sc_page.specs.Order.{name_order, default_order};
ghost use Rattle.sc_page.specs.Kept.{IsRankOf};

use sc_base::Text;
use sc_item::Item;
use sc_time::Instant;
use std::cmp::Ordering;

/// What an item is ordered by, lent by it.
#[derive(Clone, Copy)]
pub(crate) struct Rank<'a> {
    pub start: Instant,
    pub collection: &'a Text,
    pub id: &'a Text,
}

/// The rank of an item.
pub(crate) fn rank_of(item: &Item) -> Rank<'_>
    ensures { IsRankOf result item.now }
{
    Rank {
        start: item.start(),
        collection: item.collection(),
        id: item.id(),
    }
}

/// Which of two instants is earlier.
pub(crate) fn compare_instants(a: Instant, b: Instant) -> Ordering
    ensures { result ≡ int_cmp a b }
{
    a.nanoseconds().cmp(&b.nanoseconds())
}

/// Which of two ranks has the lesser collection, or in one collection the lesser id.
fn compare_names(a: &Rank, b: &Rank) -> Ordering
    ensures { (x y : Feature) → IsRankOf a.now x → IsRankOf b.now y → result ≡ name_order x y }
{
    match a.collection.cmp(b.collection) {
        Ordering::Less => Ordering::Less,
        Ordering::Equal => a.id.cmp(b.id),
        Ordering::Greater => Ordering::Greater,
    }
}

/// Which of two items of these ranks stands first on a page: the one that starts later, then the one of the lesser
/// collection, then of the lesser id.
pub(crate) fn compare_ranks(a: &Rank, b: &Rank) -> Ordering
    ensures { (x y : Feature) → IsRankOf a.now x → IsRankOf b.now y → result ≡ default_order x y }
{
    // The names are compared only where the starts are equal.
    match compare_instants(b.start, a.start) {
        Ordering::Less => Ordering::Less,
        Ordering::Equal => compare_names(a, b),
        Ordering::Greater => Ordering::Greater,
    }
}
