//! Geometries on a grid whose steps are 10^-7 degree: read from GeoJSON (RFC 7946) with every kind flattened into
//! points, lines and areas, their smallest boxes, and the boxes of bounding boxes.
#![tactic(auto)]

mod area;
mod boxes;
mod coordinates;
mod draft;
mod extent;
mod fault;
mod geom;
mod kind;
mod laws;
mod outline;
mod path;
mod place;
mod point;
mod read;
mod rects;
mod tree;

pub use area::Area;
pub use boxes::GridBox;
pub use draft::Draft;
pub use extent::box_of;
pub use fault::GeomFault;
pub use geom::Geom;
pub use laws::{one_smallest, rectangle_tests, tree_depicts_one};
pub use outline::geom_of_rects;
pub use path::Path;
pub use place::{latitude, longitude};
pub use point::Pt;
pub use read::geom_of_json;
pub use rects::{Rects, rects_of_bbox};
pub use sc_base::Seq;
