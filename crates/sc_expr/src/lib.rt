//! Filters and queries as values: the expressions of CQL2 (OGC 21-065), what makes one a filter, and what a search asks
//! for.
#![tactic(auto)]

mod depth;
mod expr;
mod fault;
mod filter;
mod kept;
mod nodes;
mod query;
mod same;
mod scalar;
mod select;

pub use expr::{CompOp, Expr, Truth3};
pub use fault::{CqlFault, ExprFault};
pub use filter::Filter;
pub use query::Query;
pub use sc_base::{Boxed, Seq, Text};
pub use sc_decimal::Dec;
pub use sc_geom::{Geom, Rects};
pub use sc_sort::{KeyList, SortSpec};
pub use sc_time::{Instant, Range};
pub use scalar::{Pattern, Scalar, Shape};
pub use select::{Pair, Select};
