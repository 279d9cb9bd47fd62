use crate::select::Select;
use sc_sort::{KeyList, SortSpec};
use std::marker::Model;

/// What a search asks for: which items, in which order, how many of them, and behind which place (STAC API, Item Search
/// and Sort extension). Contracts see it as the record of the four.
///
/// The limit is from 1 to 10,000. The place, where one is there, has a value for each key of the sort.
#[derive(Debug, Drop)]
pub struct Query {
    select: Select,
    sort: SortSpec,
    limit: u32,
    after: Option<KeyList>,
}

impl Model for Query {
    ghost use Rattle.sc_expr.specs.Query.{Asked, asked_code, IsQuery};

    ghost Value = { Asked };

    ghost coded = { asked_code };

    ghost view = { λ q. record { select = q.select; sort = q.sort; limit = q.limit; after = q.after } };

    ghost invariant = { λ q. IsQuery (record { select = q.select; sort = q.sort; limit = q.limit; after = q.after }) };
}

impl Query {
    ghost use Rattle.std.specs.Prelude.{◌≡◌};
    ghost use Rattle.std.specs.Option.{option_copied};
    ghost use Rattle.sc_expr.specs.Query.{IsQuery};

    /// The query of its parts. The condition is that the limit is from 1 to 10,000, and that `after`, where it is
    /// there, has a value for each key of the sort. Takes no memory.
    pub fn new(select: Select, sort: SortSpec, limit: u32, after: Option<KeyList>) -> Query
        requires { IsQuery (record { select = select; sort = sort; limit = limit; after = after }) }
        ensures { result ≡ record { select = select; sort = sort; limit = limit; after = after } }
    {
        Query {
            select,
            sort,
            limit,
            after,
        }
    }

    /// Which items are asked for.
    pub fn select(&self) -> &Select
        ensures { result.now ≡ self.now.select }
    {
        &self.select
    }

    /// In which order.
    pub fn sort(&self) -> &SortSpec
        ensures { result.now ≡ self.now.sort }
    {
        &self.sort
    }

    /// How many items at most, from 1 to 10,000, and that every query keeps its conditions.
    pub fn limit(&self) -> u32
        ensures limit { result ≡ self.now.limit }
        ensures kept { IsQuery self.now }
    {
        self.limit
    }

    /// Behind which place items are asked for; none where from the first on.
    pub fn after(&self) -> Option<&KeyList>
        ensures { option_copied result ≡ self.now.after }
    {
        self.after.as_ref()
    }

    /// The parts of the query, which keep its conditions. Takes no memory.
    pub fn into_parts(self) -> (Select, SortSpec, u32, Option<KeyList>)
        ensures parts { self ≡ record { select = result.0; sort = result.1; limit = result.2; after = result.3 } }
        ensures kept { IsQuery self }
    {
        let Query {
            select,
            sort,
            limit,
            after,
        } = self;
        (select, sort, limit, after)
    }
}
