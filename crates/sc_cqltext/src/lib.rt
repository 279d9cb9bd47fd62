//! Filters as texts of CQL2 (OGC 21-065r2, Annex B): how a text is read, how a filter is written, and that what is written
//! is read as that filter and as no other.
#![tactic(auto)]

mod write;

pub use sc_base::Text;
pub use sc_cqlread::{CqlFault, read_text};
pub use sc_cqlwrite::SpellFault;
pub use sc_expr::Filter;
pub use write::write_text;
