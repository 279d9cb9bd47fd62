//! Whether two geometries on the grid meet. All products are exact, and nothing takes memory.
#![tactic(auto)]

mod area;
mod boxed;
mod entering;
pub mod laws;
mod meeting;
mod segment;
mod touching;

pub use boxed::meets_rects;
pub use meeting::{meets, meets_within};
pub use sc_geom::Geom;
