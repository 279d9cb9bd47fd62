//! The jobs that requests are: what each asks for, or the first reason why nothing can be done.
#![tactic(auto)]

mod body;
mod job;
mod jobs;
mod loads;
mod pairs;
mod searches;
mod seen;

pub use job::{Job, Work};
pub use jobs::job_of;
pub use sc_base::{Seq, Text};
pub use sc_http::Request;
pub use sc_load::Load;
pub use sc_page::Links;
pub use sc_place::Routes;
pub use sc_query::Query;
pub use sc_refusal::RouteFault;
