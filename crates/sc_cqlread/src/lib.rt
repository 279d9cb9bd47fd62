//! Reads filters from CQL2 text (OGC 21-065r2, Annex B).
#![tactic(auto)]

pub mod laws;
mod nesting;
mod read;
mod reading;
mod taking;

pub use read::read_text;
pub use sc_expr::{CqlFault, Expr, Filter};
