//! Cuts of a collection into parts by the years or months in which its items start, and the names of the parts.
#![tactic(auto)]

mod calendar;
mod cut;
mod key;
pub mod laws;
mod name;
mod span;

pub use cut::Cut;
pub use key::{is_key, key_of};
pub use name::PartName;
pub use sc_base::Text;
pub use sc_time::{Instant, Range};
pub use span::span_of;
