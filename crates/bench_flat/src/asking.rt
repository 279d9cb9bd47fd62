use crate::ranks::{Rank, lateness_of};
use sc_json::read_json;
use sc_query::{Query, of_post};
use sc_sort::SortValue;
use std::alloc::Global;

/// The query of a body; none where it isn't one.
pub fn query_of(alloc: Global, body: &[u8]) -> Option<Query> {
    let tree = read_json(alloc, body).ok()?;
    of_post(alloc, &tree).ok()
}

/// The place of a query by time, as a rank.
pub fn place_of(query: &Query) -> Option<Rank<'_>> {
    let place = query.after()?;
    match place.values().first() {
        Some(SortValue::Moment(at)) => Some((lateness_of(*at), place.id().as_str())),
        _ => None,
    }
}
