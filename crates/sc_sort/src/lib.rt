//! The order of items: sorts, their texts and trees, and the comparison of what items are ordered by.
#![tactic(auto)]

mod compare;
mod fault;
mod key;
mod key_list;
pub mod laws;
mod names;
mod part;
mod text;
mod tree;
mod value;
mod words;

pub use compare::compare_keys;
pub use fault::SortFault;
pub use key::{Key, SortSpec, default_sort};
pub use key_list::KeyList;
pub use names::{Queryable, named};
pub use sc_base::{Seq, Text};
pub use sc_decimal::Dec;
pub use sc_json::Json;
pub use sc_time::Instant;
pub use text::read_sort_text;
pub use tree::read_sort_tree;
pub use value::SortValue;
