//! Geometries read from WKT, as CQL2 text writes them (OGC 21-065r2, Annex B).
#![tactic(auto)]

mod drawing;
mod fault;
pub mod laws;
mod levels;
mod marks;
mod read;
mod reading;
mod taking;
mod wkt;

pub use drawing::Drawing;
pub use fault::WktFault;
pub use levels::{MOST_LEVELS, level_behind};
pub use sc_geom::{Geom, Seq};
pub use wkt::geom_of_wkt;
