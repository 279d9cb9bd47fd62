//! Requests of HTTP/1.1 as they come from a source, and replies as they go to a sink (RFC 9112).
#![tactic(auto)]

mod body;
mod closing;
mod fault;
mod find;
mod finish;
mod head;
mod headers;
mod intake;
pub mod laws;
mod length;
mod lines;
mod look;
mod next;
mod reply;
mod request;
mod room;
mod settle;
mod status;

pub use fault::{HeadFault, HttpEnd, LengthFault};
pub use headers::find_header;
pub use intake::Intake;
pub use reply::{Reply, ReplyFault, ReplyRoom, unavailable_reply, write_reply, write_reply_in};
pub use request::{Header, Request};
pub use sc_base::{Seq, Text};
