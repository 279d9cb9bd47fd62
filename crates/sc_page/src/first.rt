ghost use Rattle.std.specs.Prelude.{◌≡◌, ◌++◌, ◌∷◌, [], ◌&&◌, nat_lt, if◌then◌else◌, true, List, length, take, reverse, None, IfOk, OnOk, option_map};
ghost use Rattle.std.specs.Arc.{arc_value};
ghost use Rattle.sc_item.specs.Feature.{Feature};
ghost use Rattle.sc_item.specs.Names.{AreApart};
ghost use Rattle.sc_page.specs.ItemKey.{item_order};
ghost use Rattle.sc_page.specs.Search.{IsPage, last_key, shared};
ghost use Rattle.sc_page.specs.Leading.{AreLatestFirst, is_earliest_first, last_of_full, may_stand, starts_after, starts_before};
ghost use Rattle.sc_page.specs.Kept.{HasFound, IsSettled};

use crate::compare::compare_items;
use crate::found::Page;
use crate::key::key_of_item;
use crate::placing::from_place;
use crate::search::Search;
use crate::starts::{is_earliest_first, is_latest_first, starts_after, starts_before};
use sc_base::Seq;
use sc_item::Item;
use sc_sort::{KeyList, SortSpec};
use std::alloc::{AllocError, Global};
use std::sync::Arc;

/// The least number of items that wait before they are sorted in.
const LEAST_STEP: usize = 64;

/// The first of the items so far that a search asks for, one more than its limit. An item that can't be among them costs
/// one comparison, and nothing of it is kept.
#[derive(Drop)]
pub struct FirstItems {
    most: usize,
    /// The first of the items, in order.
    first: Vec<Arc<Item>>,
    /// Those of the items since then that may be among the first.
    waiting: Vec<Arc<Item>>,
}

/// The last of the items, where they are so many.
fn last_of_full(items: &[Arc<Item>], most: usize) -> Option<&Arc<Item>>
    ensures { option_map (λ i. arc_value i.now) result ≡ last_of_full most (shared items.now) }
{
    if items.len() < most {
        return None;
    }
    items.last()
}

/// Whether an item may be among the first that end with this one.
fn may_stand(sort: &SortSpec, last: Option<&Arc<Item>>, item: &Item) -> bool
    ensures { result ≡ may_stand (item_order sort.now) (option_map (λ i. arc_value i.now) last.entry) item.now }
{
    match last {
        None => true,
        Some(last) => !compare_items(sort, item, last).is_gt(),
    }
}

/// The key of the last of the items.
fn last_key(
    alloc: Global,
    sort: &SortSpec,
    items: &[Arc<Item>],
) -> Result<Option<KeyList>, AllocError>
    ensures { IfOk result (λ key. key ≡ last_key sort.now (shared items.now)) }
{
    match items.last() {
        None => Ok(None),
        Some(item) => Ok(Some(key_of_item(alloc, sort, item)?)),
    }
}

/// The page of these items, of which one more than the limit shows that there is a next page.
fn cut(
    alloc: Global,
    sort: &SortSpec,
    mut items: Vec<Arc<Item>>,
    limit: usize,
) -> Result<Page, AllocError>
    ensures items { IfOk result (λ page. shared page.items ≡ take limit (shared items.items)) }
    ensures next { IfOk result (λ page. page.next ≡ (if nat_lt limit (length items.items) then last_key sort.now (shared page.items) else None)) }
{
    if items.len() <= limit {
        return Ok(Page {
            items: Seq::of(items),
            next: None,
        });
    }
    items.truncate(limit);
    let next = last_key(alloc, sort, &items)?;
    Ok(Page {
        items: Seq::of(items),
        next,
    })
}

impl FirstItems {
    /// The first of no items.
    pub fn new(alloc: Global, search: &Search) -> FirstItems
        ensures { HasFound search.now result [] }
    {
        FirstItems {
            most: search.limit() as usize + 1,
            first: Vec::new(alloc),
            waiting: Vec::new(alloc),
        }
    }

    /// The last of the first items, where they are as many as are kept. What waits doesn't count.
    pub fn last(&self) -> Option<&Arc<Item>>
        ensures { option_map (λ i. arc_value i.now) result ≡ last_of_full self.now.most (shared self.now.first.items) }
    {
        last_of_full(&self.first, self.most)
    }

    /// Sorts in the items that wait.
    pub fn settle(&mut self, search: &Search) -> Result<(), AllocError>
        ensures { OnOk result ((items : List Feature) → AreApart items → HasFound search.now self.old items → IsSettled search.now self.new items) }
    {
        if self.waiting.is_empty() {
            return Ok(());
        }
        self.first.append(&mut self.waiting)?;
        let sort = search.sort();
        self.first.sort_by(|a, b| compare_items(sort, a, b))?;
        self.first.truncate(self.most);
        Ok(())
    }

    /// Sorts in the items that wait, where they are many.
    fn settle_many(&mut self, search: &Search) -> Result<(), AllocError>
        ensures { OnOk result ((items : List Feature) → AreApart items → HasFound search.now self.old items → HasFound search.now self.new items) }
    {
        if self.waiting.len() < self.most.max(LEAST_STEP) {
            return Ok(());
        }
        self.settle(search)?;
        Ok(())
    }

    /// Whether an item may be among the first.
    fn may_enter(&self, search: &Search, item: &Item) -> bool
        ensures { result ≡ may_stand (item_order search.now.sort) (last_of_full self.now.most (shared self.now.first.items)) item.now }
    {
        may_stand(search.sort(), self.last(), item)
    }

    /// Takes one item more, which has the name of none before it.
    fn add(&mut self, alloc: Global, search: &Search, item: &Arc<Item>) -> Result<(), AllocError>
        ensures { OnOk result ((items : List Feature) → AreApart (items ++ arc_value item.now ∷ []) → HasFound search.now self.old items → HasFound search.now self.new (items ++ arc_value item.now ∷ [])) }
    {
        if !self.may_enter(search, item) {
            return Ok(());
        }
        let asked = search.asks_for(alloc, item)?;
        if !asked {
            return Ok(());
        }
        let shared = Arc::try_clone(item)?;
        self.waiting.push(shared)?;
        self.settle_many(search)?;
        Ok(())
    }

    /// Takes more items, no two of which and of those before have one name.
    pub fn add_all(
        &mut self,
        alloc: Global,
        search: &Search,
        items: &[Arc<Item>],
    ) -> Result<(), AllocError>
        ensures { OnOk result ((before : List Feature) → AreApart (before ++ shared items.now) → HasFound search.now self.old before → HasFound search.now self.new (before ++ shared items.now)) }
    {
        for item in items {
            self.add(alloc, search, item)?;
        }
        Ok(())
    }

    /// Whether an item, and with it each that starts before it, comes after the last of the first items, where the latest
    /// come first.
    fn is_too_early(&self, latest_first: bool, item: &Item) -> bool
        ensures { result ≡ (latest_first && starts_before (last_of_full self.now.most (shared self.now.first.items)) item.now) }
    {
        latest_first && starts_before(self.last(), item)
    }

    /// Whether an item, and with it each that starts after it, comes after the last of the first items, where the earliest
    /// come first.
    fn is_too_late(&self, item: &Item) -> bool
        ensures { result ≡ starts_after (last_of_full self.now.most (shared self.now.first.items)) item.now }
    {
        starts_after(self.last(), item)
    }

    /// Takes items from the start on, as far as they may be among the first.
    fn add_from_start(
        &mut self,
        alloc: Global,
        search: &Search,
        items: &[Arc<Item>],
    ) -> Result<(), AllocError>
        requires { AreLatestFirst (shared items.now) }
        ensures { OnOk result ((before : List Feature) → AreApart (before ++ shared items.now) → HasFound search.now self.old before → HasFound search.now self.new (before ++ shared items.now)) }
    {
        let latest_first = is_latest_first(search.sort());
        for item in items {
            if self.is_too_early(latest_first, item) {
                return Ok(());
            }
            self.add(alloc, search, item)?;
        }
        Ok(())
    }

    /// Takes items from the end on, as far as they may be among the first.
    fn add_backwards(
        &mut self,
        alloc: Global,
        search: &Search,
        items: &[Arc<Item>],
    ) -> Result<(), AllocError>
        requires latest { AreLatestFirst (shared items.now) }
        requires sort { is_earliest_first search.now.sort ≡ true }
        ensures { OnOk result ((before : List Feature) → AreApart (before ++ reverse (shared items.now)) → HasFound search.now self.old before → HasFound search.now self.new (before ++ reverse (shared items.now))) }
    {
        let mut rest = items;
        'reading: while let Some((item, others)) = rest.split_last() {
            if self.is_too_late(item) {
                return Ok(());
            }
            self.add(alloc, search, item)?;
            rest = others;
        }
        Ok(())
    }

    /// The same, after which none waits.
    fn add_from_end(
        &mut self,
        alloc: Global,
        search: &Search,
        items: &[Arc<Item>],
    ) -> Result<(), AllocError>
        requires latest { AreLatestFirst (shared items.now) }
        requires sort { is_earliest_first search.now.sort ≡ true }
        ensures { OnOk result ((before : List Feature) → AreApart (before ++ shared items.now) → HasFound search.now self.old before → HasFound search.now self.new (before ++ shared items.now)) }
    {
        self.add_backwards(alloc, search, items)?;
        self.settle(search)?;
        Ok(())
    }

    /// Takes more items, which stand by their starts, the latest first, and no two of which and of those before have one
    /// name. Under a sort that begins with the time, those aren't looked at that start before the place at which the page
    /// begins, which is found by halving, nor those that start behind the last of the first items.
    pub fn add_latest_first(
        &mut self,
        alloc: Global,
        search: &Search,
        items: &[Arc<Item>],
    ) -> Result<(), AllocError>
        requires { AreLatestFirst (shared items.now) }
        ensures { OnOk result ((before : List Feature) → AreApart (before ++ shared items.now) → HasFound search.now self.old before → HasFound search.now self.new (before ++ shared items.now)) }
    {
        let rest = from_place(search, items);
        if is_earliest_first(search.sort()) {
            return self.add_from_end(alloc, search, rest);
        }
        self.add_from_start(alloc, search, rest)
    }

    /// The page of the items.
    pub fn into_page(mut self, alloc: Global, search: &Search) -> Result<Page, AllocError>
        ensures { IfOk result (λ page. (items : List Feature) → AreApart items → HasFound search.now self items → IsPage search.now items (shared page.items) page.next) }
    {
        self.settle(search)?;
        cut(alloc, search.sort(), self.first, search.limit() as usize)
    }
}
