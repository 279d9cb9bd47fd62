//! Bounds on the starts, ends and places of items: what they cover, the smallest round some items, joins and meets.
#![tactic(auto)]

mod bounds;
mod hull;
pub mod laws;
mod moments;
mod places;
mod reach;

pub use bounds::{Bounds, covers, join, meet, widen};
pub use hull::hull_of;
pub use reach::Reach;
pub use sc_geom::GridBox;
pub use sc_time::Instant;
