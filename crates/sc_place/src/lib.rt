//! What requests ask for: the resources of the catalogue by the paths that lead to them, and what methods do there.
#![tactic(auto)]

mod endpoint;
mod method;
mod operation;
mod resource;
mod target;

pub use endpoint::Routes;
pub use operation::{Operation, PlaceFault, operation_of};
pub use sc_base::Text;
pub use target::{path_of, query_of};
