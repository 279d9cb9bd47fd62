//! The documents of the catalogue's API as texts.
#![tactic(auto)]

mod documents;
mod links;
mod list;

pub use documents::{conformance_text, landing_text, queryables_text};
pub use list::collections_text;
pub use sc_base::Text;
pub use sc_json::Json;
