//! What the marks of the grammar of CQL2 text make: the scalars, shapes and expressions of a filter, while its tokens are
//! read.
#![tactic(auto)]

mod act;
mod bbox;
mod chain;
mod exprs;
pub mod laws;
mod literal;
mod predicate;
mod put;
mod scalar;
mod shape;
mod state;
mod values;

pub use exprs::Exprs;
pub use sc_cqlgrammar::{Class, Mark, Token};
pub use sc_expr::{Expr, Geom, Pattern, Scalar, Shape};
pub use state::{Bbox, State};
pub use values::Values;
