//! Notices in a bounded queue, of parts that are worth a look. Who tells or hears does so by a pass of its own, of which
//! contracts see the list of its calls with their answers.
#![tactic(auto)]

mod card;
mod notice;
mod notices;
mod pass;
mod protocol;
mod record;

pub use card::NoticeCard;
pub use notice::Notice;
pub use notices::{Notices, close_notices, make_notices};
pub use pass::{NoticePass, hear, tell};
pub use sc_base::Seq;
pub use sc_cut::PartName;
