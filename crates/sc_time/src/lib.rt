//! Instants and ranges of time, read and written as RFC 3339 has them.
#![tactic(auto)]

mod civil;
mod fault;
mod form;
mod instant;
pub mod laws;
mod range;
mod read;
mod write;

pub use civil::{month_of, year_of};
pub use fault::TimeFault;
pub use instant::Instant;
pub use range::Range;
pub use read::{read_date, read_instant, read_range};
pub use sc_base::Text;
pub use write::write_instant;
