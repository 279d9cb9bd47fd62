//! Filters written as texts of CQL2 (OGC 21-065r2, Annex B).
#![tactic(auto)]

mod bytes;
mod expressions;
mod fault;
mod geometry;
mod predicates;
mod scalars;
mod spellable;
mod spelling;
mod write;

pub use fault::SpellFault;
pub use sc_base::Text;
pub use sc_expr::Filter;
pub use write::write_text;
