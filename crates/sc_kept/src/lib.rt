//! A catalogue whose loads outlive a crash: each is stored in a journal before it is answered.
#![tactic(auto)]

mod backlog;
mod booked;
mod documents;
mod fault;
mod fields;
mod kept;
mod loads;
mod opening;
mod publish;
mod record;
mod replay;
mod sealing;
mod size;

pub use fault::{KeptFault, ReopenRefused};
pub use kept::Kept;
pub use opening::reopen;
pub use record::read_record;
pub use sc_catalog::{Catalogue, Entry, Load, LoadFault, Published, Seq, Snapshot};
pub use sc_journal::{Disk, Failed, Journal, OpenFault, Sealed};
pub use sealing::seal;
