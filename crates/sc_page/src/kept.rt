ghost use Rattle.std.specs.Prelude.{◌≡◌, IfOk};
ghost use Rattle.sc_page.specs.Kept.{IsRankOf};
ghost use Rattle.sc_page.specs.Order.{default_order};

use crate::order::{Rank, compare_ranks};
use sc_base::Text;
use sc_item::Item;
use sc_time::Instant;
use std::alloc::{AllocError, Global};
use std::cmp::Ordering;
use std::marker::Model;
use std::snapshot::Snapshot;

/// What a page keeps of an item: its document, and what it is ordered by. Contracts see it as the item.
#[derive(Drop)]
pub struct PageItem {
    start: Instant,
    collection: Text,
    id: Text,
    doc: Text,
    item: Snapshot<Item>,
}

impl Model for PageItem {
    ghost use Rattle.sc_item.specs.Feature.{Feature};
    ghost use Rattle.sc_item.specs.contracts.item.Item as e;

    ghost Value = { Feature };

    ghost coded = { e.the_row.coded };

    ghost use Rattle.std.specs.Prelude.{◌≡◌};

    ghost view = { λ i. i.item.value };

    ghost invariant = { λ i. (i.start ≡ i.item.value.start) × (i.collection ≡ i.item.value.collection) × (i.id ≡ i.item.value.id) × (i.doc ≡ i.item.value.doc) };
}

impl PageItem {
    /// What a page keeps of this item. It has copies of the item's texts.
    pub(crate) fn of(alloc: Global, item: &Item) -> Result<PageItem, AllocError>
        ensures { IfOk result (λ kept. kept ≡ item.now) }
    {
        Ok(PageItem {
            start: item.start(),
            collection: item.collection().try_clone(alloc)?,
            id: item.id().try_clone(alloc)?,
            doc: item.doc().try_clone(alloc)?,
            item: Snapshot::of(item),
        })
    }

    /// The item's rank.
    pub(crate) fn rank(&self) -> Rank<'_>
        ensures { IsRankOf result self.now }
    {
        Rank {
            start: self.start,
            collection: &self.collection,
            id: &self.id,
        }
    }

    /// The item's document.
    pub fn doc(&self) -> &Text
        ensures { result.now ≡ self.now.doc }
    {
        &self.doc
    }
}

/// Which of two items stands first on a page.
pub(crate) fn compare_items(a: &PageItem, b: &PageItem) -> Ordering
    ensures { result ≡ default_order a.now b.now }
{
    compare_ranks(&a.rank(), &b.rank())
}
