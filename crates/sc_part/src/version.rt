ghost use Rattle.std.specs.Prelude.{◌≡◌, ◌+◌, [], map, find, option_map, length, All, IfOk};
ghost use Rattle.std.specs.Str.{bytes_eq};
ghost use Rattle.std.specs.Arc.{arc_value};
ghost use Rattle.sc_item.specs.Names.{AreApart};
ghost use Rattle.sc_bounds.specs.Sets.{IsHull, hull};
ghost use Rattle.sc_part.specs.Scan.{Fits, IsScan, after, reach, scan_of, shared};
ghost use Rattle.sc_part.specs.Version.{IsKept};

use crate::entry::Entry;
use crate::hull::hull_after;
use crate::index::{index_after, marks_of, place_of};
use crate::merge::{Merged, merge};
use crate::order::scan_of_items;
use sc_base::Text;
use sc_bounds::Bounds;
use sc_cut::PartName;
use sc_item::Item;
use sc_outside::Steps;
use std::alloc::{AllocError, Global};
use std::marker::Model;
use std::sync::Arc;
use std::sync::ledger::Ledger;

/// A version of a part: its name, the revision that made it, and its items. Contracts see the items in the order of a
/// scan: by start, the latest first, and of one start by id. A version never changes; versions share their items.
#[derive(Drop)]
pub struct PartVersion {
    name: PartName,
    stamp: u64,
    items: Vec<Arc<Item>>,
    index: Vec<Entry>,
    hull: Bounds,
}

impl Model for PartVersion {
    ghost use Rattle.std.specs.Prelude.{map};
    ghost use Rattle.std.specs.Arc.{arc_value};
    ghost use Rattle.sc_part.specs.Version.{Version};
    ghost use Rattle.sc_part.specs.Inside.{IsSound};
    ghost use Rattle.std.specs.Coded.{codes};
    ghost use Rattle.sc_json.specs.contracts.tree.Json as e;

    ghost Value = { Version };

    ghost coded = { Prim.hlevel (codes, e.the_row.coded) };

    ghost view = { λ v. record { name = v.name; stamp = v.stamp; items = map arc_value v.items.items } };

    ghost invariant = { λ v. IsSound (record { name = v.name; stamp = v.stamp; items = map arc_value v.items.items }) v.items.items v.index.items v.hull };
}

impl PartVersion {
    /// The version of a part that has no items yet: its stamp is 0. Takes no memory.
    pub fn empty(alloc: Global, name: PartName) -> PartVersion
        ensures { result ≡ record { name = name; stamp = 0; items = [] } }
    {
        PartVersion {
            name,
            stamp: 0,
            items: Vec::new(alloc),
            index: Vec::new(alloc),
            hull: Bounds::empty(),
        }
    }

    /// The part's name.
    pub fn name(&self) -> &PartName
        ensures name { result.now ≡ self.now.name }
        ensures kept { IsKept self.now }
    {
        &self.name
    }

    /// The revision that made this version.
    pub fn stamp(&self) -> u64
        ensures { result ≡ self.now.stamp }
    {
        self.stamp
    }

    /// The number of items.
    pub fn len(&self) -> u64
        ensures { result ≡ length self.now.items }
    {
        self.items.len() as u64
    }

    /// The items in the order of a scan. It counts as one step, and one more for each item.
    pub fn scan<L: Ledger>(&self, steps: &mut Steps<L>) -> &[Arc<Item>]
        ensures items { shared result.now ≡ self.now.items }
        ensures kept { IsKept self.now }
        ensures steps { steps.new ≡ steps.old + 1 + length self.now.items }
    {
        steps.add(1);
        steps.add(self.len());
        self.items.as_slice()
    }

    /// The item with the id, where one has it: no two items of a part have one id. It takes the time of a search among
    /// digests of ids.
    pub fn find_id(&self, id: &Text) -> Option<&Arc<Item>>
        ensures { option_map (λ item. arc_value item.now) result ≡ find (λ item. bytes_eq item.id id.now) self.now.items }
    {
        let items = self.items.as_slice();
        match place_of(items, &self.index, id.as_str()) {
            Some(place) => Some(&items[place]),
            None => None,
        }
    }

    /// The smallest bounds that cover all items. They are kept, so this takes no time.
    pub fn hull(&self) -> Bounds
        ensures hull { IsHull result (map reach self.now.items) }
        ensures value { result ≡ hull (map reach self.now.items) }
    {
        // All bounds are in order.
        let _place = self.hull.place();
        self.hull
    }

    /// The version without the items whose id is in `gone` and with those of `come`, which stand in any order. An id in
    /// `gone` that no item has changes nothing. The items of `come` have to fit the name, and with those that stay no
    /// two may have one name. Pointers alone are copied; the time is that of one pass over the items, and of looking up
    /// each of `gone`. Where some are gone, the hull is taken anew.
    pub fn with_changes(
        &self,
        alloc: Global,
        stamp: u64,
        gone: &[Text],
        come: &[Arc<Item>],
    ) -> Result<PartVersion, AllocError>
        requires fits { All (Fits self.now.name) (shared come.now) }
        requires apart { AreApart (after gone.now (shared come.now) self.now.items) }
        ensures value { IfOk result (λ v. v ≡ record { name = self.now.name; stamp = stamp; items = scan_of (after gone.now (shared come.now) self.now.items) }) }
        ensures scan { IfOk result (λ v. IsScan (after gone.now (shared come.now) self.now.items) v.items) }
    {
        let name = self.name.try_clone(alloc)?;
        let arrivals = scan_of_items(alloc, come)?;
        let marks = marks_of(alloc, &self.items, &self.index, gone)?;
        let merged = merge(alloc, &self.items, &marks, &arrivals)?;
        let index = index_after(
            alloc,
            &self.index,
            &marks,
            &merged.moved,
            &merged.fresh,
            &merged.items,
        )?;
        let hull = hull_after(&self.hull, gone, come, &merged.items);
        let Merged {
            items,
            moved: _,
            fresh: _,
        } = merged;
        Ok(PartVersion {
            name,
            stamp,
            items,
            index,
            hull,
        })
    }
}
