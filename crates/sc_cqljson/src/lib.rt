//! Filters as JSON trees of CQL2 (OGC 21-065r2, Annex B), and how a tree is read.
#![tactic(auto)]

mod arguments;
mod expression;
mod head;
pub mod laws;
mod literal;
mod numbers;
mod operator;
mod read;
mod scalar;
mod shape;
mod words;

pub use read::read_tree;
pub use sc_expr::{CqlFault, Filter};
pub use sc_json::Json;
