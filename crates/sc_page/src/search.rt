ghost use Rattle.std.specs.Prelude.{◌≡◌, Some, length, IfOk};
ghost use Rattle.std.specs.Option.{option_copied};
ghost use Rattle.sc_expr.specs.Query.{IsQuery};
ghost use Rattle.sc_page.specs.Search.{is_asked, is_behind};

use crate::compare::compare_with_key;
use sc_eval::Prepared;
use sc_expr::{Query, Select};
use sc_item::Item;
use sc_sort::{KeyList, SortSpec};
use std::alloc::{AllocError, Global};
use std::marker::Model;

/// A query that is asked of many items, with what is computed once for all of them. Contracts see it as the query.
#[derive(Drop)]
pub struct Search<'a> {
    query: &'a Query,
    after: Option<&'a KeyList>,
    select: Prepared<'a>,
}

impl<'a> Model for Search<'a> {
    ghost use Rattle.std.specs.Prelude.{◌≡◌};
    ghost use Rattle.sc_expr.specs.Query.{Asked, asked_code};

    ghost Value = { Asked };

    ghost coded = { asked_code };

    ghost use Rattle.std.specs.Option.{option_copied};
    ghost use Rattle.sc_expr.specs.Query.{IsQuery};

    ghost view = { λ s. record { select = s.query.now.select; sort = s.query.now.sort; limit = s.query.now.limit; after = option_copied s.after } };

    ghost invariant = { λ s. (s.select ≡ s.query.now.select) × IsQuery (record { select = s.query.now.select; sort = s.query.now.sort; limit = s.query.now.limit; after = option_copied s.after }) };
}

/// Whether an item comes strictly after a place, where there is one.
fn is_behind(sort: &SortSpec, after: Option<&KeyList>, item: &Item) -> bool
    ensures { result ≡ is_behind sort.now (option_copied after.entry) item.now }
{
    match after {
        None => true,
        Some(place) => compare_with_key(sort, item, place).is_gt(),
    }
}

impl<'a> Search<'a> {
    /// Computes what is computed once for a query.
    pub fn of(alloc: Global, query: &'a Query) -> Result<Search<'a>, AllocError>
        ensures { IfOk result (λ search. search ≡ query.now) }
    {
        // Every query keeps what queries keep.
        let _limit = query.limit();
        let select = Prepared::of(alloc, query.select())?;
        Ok(Search {
            query,
            after: query.after(),
            select,
        })
    }

    /// The same of the query behind another place, which has a value for each key of the query's sort.
    pub fn behind(
        alloc: Global,
        query: &'a Query,
        place: &'a KeyList,
    ) -> Result<Search<'a>, AllocError>
        requires { length place.now.values ≡ length query.now.sort }
        ensures { IfOk result (λ search. search ≡ record { select = query.now.select; sort = query.now.sort; limit = query.now.limit; after = Some place.now }) }
    {
        let _limit = query.limit();
        let select = Prepared::of(alloc, query.select())?;
        Ok(Search {
            query,
            after: Some(place),
            select,
        })
    }

    /// What is selected.
    pub fn select(&self) -> &Select
        ensures { result.now ≡ self.now.select }
    {
        self.query.select()
    }

    /// The place behind which the items are asked for, where there is one.
    pub fn after(&self) -> Option<&KeyList>
        ensures { option_copied result ≡ self.now.after }
    {
        self.after
    }

    /// The order that is asked for.
    pub fn sort(&self) -> &SortSpec
        ensures { result.now ≡ self.now.sort }
    {
        self.query.sort()
    }

    /// How many items at most, from 1 to 10,000.
    pub fn limit(&self) -> u32
        ensures limit { result ≡ self.now.limit }
        ensures kept { IsQuery self.now }
    {
        self.query.limit()
    }

    /// Whether an item is asked for: the query selects it, and it comes strictly after the query's place.
    pub fn asks_for(&self, alloc: Global, item: &Item) -> Result<bool, AllocError>
        ensures { IfOk result (λ asked. asked ≡ is_asked self.now item.now) }
    {
        // A comparison costs less than a filter.
        if !is_behind(self.query.sort(), self.after, item) {
            return Ok(false);
        }
        self.select.selects(alloc, item)
    }
}
