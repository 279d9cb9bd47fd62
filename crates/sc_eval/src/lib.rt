//! What a filter means of an item, and which items a search selects.
#![tactic(auto)]

mod comparison;
mod like;
mod names;
mod operand;
mod prepared;
mod property;
mod select;
mod truth;
mod value;

pub use comparison::instant_of;
pub use names::Names;
pub use prepared::{Prepared, selects};
pub use property::value_of;
pub use sc_expr::Truth3;
pub use select::is_listed;
pub use truth::eval;
pub use value::Value;
