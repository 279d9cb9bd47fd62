//! Pages of items: which items, in which order, and the text that they are sent as.
#![tactic(auto)]

mod compare;
mod first;
mod flat;
mod found;
mod kept;
mod key;
mod laws;
mod lent;
mod link;
mod linked;
mod links;
mod order;
mod page;
mod placing;
mod search;
mod starts;
mod text;

pub use compare::{compare_items, compare_with_key};
pub use first::FirstItems;
pub use flat::flat_page;
pub use found::Page;
pub use kept::PageItem;
pub use key::key_of_item;
pub use laws::{
    default_order_is_total, item_order_is_total, one_listing, one_page, one_page_of_search,
};
pub use linked::{page_text, push_page_text};
pub use links::Links;
pub use page::PageSoFar;
pub use sc_base::{Seq, Text};
pub use sc_expr::{Pair, Query};
pub use sc_item::Item;
pub use sc_sort::{KeyList, SortSpec};
pub use search::Search;
pub use text::bare_page_text;
