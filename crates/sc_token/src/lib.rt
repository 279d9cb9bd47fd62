//! Tokens: the text of what an item is ordered by, from which a search goes on.
#![tactic(auto)]

mod digits;
mod fault;
pub mod laws;
mod list;
mod moment;
mod read;
mod value;
mod write;

pub use fault::TokenFault;
pub use read::read_token;
pub use sc_sort::{KeyList, SortSpec, Text};
pub use write::write_token;
