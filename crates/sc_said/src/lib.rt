//! What replies say: refusals, loads that were accepted, and the bytes of the replies.
#![tactic(auto)]

mod room;
mod said;
mod saying;

pub use room::LoadRoom;
pub use said::Said;
pub use saying::{behind, no_collection, no_item, refusal_text, reply_text};
pub use sc_base::Text;
