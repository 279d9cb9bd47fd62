//! A catalogue whose loads outlive a crash, served: passes of its desk, their calls, and the STAC API on one connection.
#![tactic(auto)]

mod api;
mod calls;
mod pass;

pub use api::serve_kept;
pub use calls::{KeptRefused, kept_publish, kept_snapshot};
pub use pass::KeptPass;
pub use sc_kept::{Catalogue, Disk, Kept, KeptFault, Load, LoadFault, Published, Snapshot};
pub use sc_session::ConnEnd;
pub use sc_turn::{Card, Desk, Pass, close, make};
