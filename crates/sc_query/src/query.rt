ghost use Rattle.std.specs.Option.{option_copied};
ghost use Rattle.sc_query.specs.Reading.{Answers};
ghost use Rattle.sc_query.specs.Query.{SelectOf, QueryOf, QueryOfPairs, QueryWithin, QueryOfBody};
ghost use Rattle.sc_query.specs.Sources.{parameters};

use crate::fault::QueryFault;
use crate::filter::filter_of;
use crate::given::Source;
use crate::limit::limit_of;
use crate::names::{collections_of, ids_of};
use crate::order::{place_of, sort_of};
use crate::space::{only_one, rects_of, shape_of, time_of};
use sc_base::Text;
use sc_expr::{Pair, Query, Select};
use sc_json::Json;
use std::alloc::Global;

/// What is selected, within one collection or not.
fn select_of(alloc: Global, within: Option<&Text>, source: Source<'_>) -> Result<Select, QueryFault>
    ensures { Answers (SelectOf (option_copied within.entry) (parameters source.entry)) result }
{
    let rects = rects_of(alloc, source)?;
    let time = time_of(source)?;
    let shape = shape_of(alloc, source)?;
    only_one(&rects, &shape)?;
    let ids = ids_of(alloc, source)?;
    let collections = collections_of(alloc, within, source)?;
    let filter = filter_of(alloc, source)?;
    Ok(Select {
        collections,
        ids,
        time,
        rects,
        shape,
        filter,
    })
}

/// The query that parameters are, within one collection or not.
fn query_of(alloc: Global, within: Option<&Text>, source: Source<'_>) -> Result<Query, QueryFault>
    ensures { Answers (QueryOf (option_copied within.entry) (parameters source.entry)) result }
{
    let limit = limit_of(source)?;
    let select = select_of(alloc, within, source)?;
    let sort = sort_of(alloc, source)?;
    let after = place_of(alloc, &sort, source)?;
    Ok(Query::new(select, sort, limit, after))
}

/// The query of the pairs of a query string (STAC API, Item Search, with its Filter and Sort extensions).
///
/// The first pair of a name counts, and where its value is empty the parameter counts as absent. Other names are ignored.
/// `limit` is digits, of which there may be any number: 10 where it is absent, and 10,000 where it is more. `bbox` is
/// numbers between commas, `ids` and `collections` are texts between commas, `datetime` is as
/// [`read_range`](sc_time::read_range) has it, `intersects` is a JSON text, `sortby` is as
/// [`read_sort_text`](sc_sort::read_sort_text) has it and is `-datetime` where it is absent, and `token` is one under that
/// sort. `filter` is CQL2 text, or JSON text where `filter-lang` is `cql2-json`.
///
/// The fault is the first that holds in the order of [`QueryFault`]; memory may run out at any place.
pub fn of_get(alloc: Global, pairs: &[Pair]) -> Result<Query, QueryFault>
    ensures { Answers (QueryOfPairs pairs.now) result }
{
    query_of(alloc, None, Source::Pairs(pairs))
}

/// The query of the pairs of a query string, within one collection: as [`of_get`] has it, but `collections` isn't read, and
/// the items of this collection alone are selected.
pub fn of_get_within(alloc: Global, collection: &Text, pairs: &[Pair]) -> Result<Query, QueryFault>
    ensures { Answers (QueryWithin collection.now pairs.now) result }
{
    query_of(alloc, Some(collection), Source::Pairs(pairs))
}

/// The query of a body (STAC API, Item Search, with its Filter and Sort extensions).
///
/// It is an object, of which other names are ignored and null counts as absent. `limit` is a whole number by its value, so
/// `1e1` is 10. `bbox` is a list of numbers, `ids` and `collections` are lists of texts, of which an empty one selects all,
/// `datetime` is a text, `intersects` is the geometry, `sortby` is as [`read_sort_tree`](sc_sort::read_sort_tree) has it,
/// and `token` is a text. `filter` is CQL2 JSON, or CQL2 text where `filter-lang` is `cql2-text`. All else is as
/// [`of_get`] has it.
///
/// It is `BadBody` where the body is no object, and else the first fault that holds in the order of [`QueryFault`]; memory
/// may run out at any place.
pub fn of_post(alloc: Global, body: &Json) -> Result<Query, QueryFault>
    ensures { Answers (QueryOfBody body.now) result }
{
    match body.as_object() {
        Some(_) => query_of(alloc, None, Source::Body(body)),
        None => Err(QueryFault::BadBody),
    }
}
