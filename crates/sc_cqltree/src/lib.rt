//! Filters written as JSON trees of CQL2 (OGC 21-065r2, Annex B), which are read as those filters and as no others.
#![tactic(auto)]

mod decimals;
mod expressions;
mod geometries;
mod objects;
mod scalars;
mod write;

pub use sc_expr::Filter;
pub use sc_json::Json;
pub use write::write_tree;
