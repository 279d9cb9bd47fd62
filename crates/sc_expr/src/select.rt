use crate::filter::Filter;
use sc_base::{Seq, Text};
use sc_geom::{Geom, Rects};
use sc_time::Range;

/// What a search selects: the items of which every part that is there holds (STAC API, Item Search).
#[derive(Debug, Drop)]
pub struct Select {
    /// The item's collection is one of these.
    pub collections: Option<Seq<Text>>,
    /// The item's id is one of these.
    pub ids: Option<Seq<Text>>,
    /// The item's time has an instant in common with this range.
    pub time: Option<Range>,
    /// The item's geometry has a position in common with one of these boxes.
    pub rects: Option<Rects>,
    /// The item's geometry has a position in common with this one.
    pub shape: Option<Geom>,
    /// The filter is true of the item.
    pub filter: Option<Filter>,
}

/// One pair of a query string, decoded.
#[derive(Debug, Drop)]
pub struct Pair {
    pub name: Text,
    pub value: Text,
}
