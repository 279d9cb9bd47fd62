//! A journal: records that outlive a crash. Each is stored before its append is answered, and what a crash leaves at any
//! moment has all the records that were answered, in order, and at most the one that was being appended beside them.
#![tactic(auto)]

mod append;
mod disk;
mod failing;
mod fault;
mod file;
mod journal;
mod laws;
mod mem_disk;
mod opening;
mod pieces;
mod progress;
mod reading;
mod recorded;
mod sealed;
mod store;
mod sure_disk;
mod taking;

pub use disk::Disk;
pub use fault::OpenFault;
pub use file::FileDisk;
pub use journal::{Journal, LastAppend};
pub use laws::{one_bad_record, one_list};
pub use mem_disk::MemDisk;
pub use opening::{NotOpened, OpenRefused, Opened, open, open_into};
pub use sc_base::Seq;
pub use sc_outside::Failed;
pub use sealed::Sealed;
pub use sure_disk::SureDisk;
pub use taking::TakeRecords;
