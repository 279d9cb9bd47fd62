//! The queries of searches (STAC API, Item Search, with its Filter and Sort extensions): what the pairs of a query string
//! or the members of a body ask for, or their first fault.
#![tactic(auto)]

mod fault;
mod filter;
mod given;
mod limit;
mod names;
mod order;
mod query;
mod space;
mod words;

pub use fault::QueryFault;
pub use query::{of_get, of_get_within, of_post};
pub use sc_expr::{Pair, Query};
pub use sc_json::Json;
