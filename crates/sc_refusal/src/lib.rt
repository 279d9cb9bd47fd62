//! Refusals: what is told of each fault of a request or of a load, and the status of the reply that tells it.
#![tactic(auto)]

mod fault;
mod inner;
mod loads;
mod queries;
mod refusal;
mod requests;

pub use fault::RouteFault;
pub use loads::{load_refusal, prepare_refusal};
pub use queries::query_refusal;
pub use refusal::Refusal;
pub use requests::{head_refusal, length_refusal, route_refusal};
pub use sc_base::Text;
