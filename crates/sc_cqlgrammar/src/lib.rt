//! The grammar of CQL2 text (OGC 21-065r2, Annex B) and of the WKT of its geometries, as one table of rules that is read
//! with one token of foresight.
//!
//! There is no reader here: the rules and what may come first in them stand in `specs/`, over the tokens of `sc_grammar`,
//! and each function of [`laws`] has one law as its contract.
#![tactic(auto)]

mod choice;
mod filters;
mod geometries;
mod item;
pub mod laws;
mod mark;
mod predicates;
mod rule;
mod stack;
mod step;

pub use mark::Mark;
pub use rule::Rule;
pub use sc_grammar::{Class, Token};
pub use stack::Stack;
pub use step::Step;
