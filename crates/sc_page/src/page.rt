ghost use Rattle.std.specs.Prelude.{◌≡◌, ◌++◌, ◌∷◌, [], List, ℕ, IfOk, OnOk, option_map};
ghost use Rattle.sc_item.specs.Feature.{Feature};
ghost use Rattle.sc_item.specs.Names.{AreApart};
ghost use Rattle.sc_page.specs.Order.{default_order};
ghost use Rattle.sc_page.specs.Page.{every_item, IsFlatPage};
ghost use Rattle.sc_page.specs.Leading.{last_of_full, may_stand};
ghost use Rattle.sc_page.specs.Kept.{HasSeen};

use crate::kept::{PageItem, compare_items};
use crate::order::{compare_ranks, rank_of};
use sc_base::Seq;
use sc_item::Item;
use std::alloc::{AllocError, Global};

/// The least number of items that wait before they are sorted into the page.
const LEAST_STEP: usize = 1024;

/// The page of the items so far. An item that can't stand on it costs one comparison, and nothing of it is kept.
#[derive(Drop)]
pub struct PageSoFar {
    limit: usize,
    /// The page of the first of the items.
    page: Vec<PageItem>,
    /// Those of the items since then that may stand on that page.
    waiting: Vec<PageItem>,
}

/// The last item of a page that is full.
fn last_of_full(page: &[PageItem], limit: usize) -> Option<&PageItem>
    ensures { option_map (λ i. i.now) result ≡ last_of_full limit page.now }
{
    if page.len() < limit {
        return None;
    }
    page.last()
}

/// Whether an item may stand on a page: on each that isn't full, and else where it doesn't come after the page's last.
fn may_stand(last: Option<&PageItem>, item: &Item) -> bool
    ensures { result ≡ may_stand default_order (option_map (λ i. i.now) last.entry) item.now }
{
    match last {
        None => true,
        Some(last) => !compare_ranks(&rank_of(item), &last.rank()).is_gt(),
    }
}

impl PageSoFar {
    /// The page of at most `limit` items of none.
    pub fn new(alloc: Global, limit: u32) -> PageSoFar
        ensures { HasSeen limit result [] }
    {
        PageSoFar {
            limit: limit as usize,
            page: Vec::new(alloc),
            waiting: Vec::new(alloc),
        }
    }

    /// Sorts the items that wait into the page.
    fn settle(&mut self) -> Result<(), AllocError>
        ensures { OnOk result ((limit : ℕ) (items : List Feature) → AreApart items → HasSeen limit self.old items → HasSeen limit self.new items × IsFlatPage every_item default_order limit items self.new.page.items) }
    {
        self.page.append(&mut self.waiting)?;
        self.page.sort_by(|a, b| compare_items(a, b))?;
        self.page.truncate(self.limit);
        Ok(())
    }

    /// Makes this the page of one item more, which has the name of none before it.
    pub fn add(&mut self, alloc: Global, item: &Item) -> Result<(), AllocError>
        ensures { OnOk result ((limit : ℕ) (items : List Feature) → AreApart (items ++ item.now ∷ []) → HasSeen limit self.old items → HasSeen limit self.new (items ++ item.now ∷ [])) }
    {
        if !may_stand(last_of_full(&self.page, self.limit), item) {
            return Ok(());
        }
        self.waiting.push(PageItem::of(alloc, item)?)?;
        if self.waiting.len() >= self.limit.max(LEAST_STEP) {
            self.settle()?;
        }
        Ok(())
    }

    /// The first `limit` of the items in the order of a page.
    pub fn into_items(mut self) -> Result<Seq<PageItem>, AllocError>
        ensures { IfOk result (λ page. (limit : ℕ) (items : List Feature) → AreApart items → HasSeen limit self items → IsFlatPage every_item default_order limit items page) }
    {
        self.settle()?;
        Ok(Seq::of(self.page))
    }
}
