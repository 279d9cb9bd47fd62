//! Following a search's `next` from page to page gives all items that it asks for.
#![tactic(auto)]

pub mod laws;
mod paging;

pub use paging::chain_pages;
pub use sc_walk::{Query, Snapshot};
