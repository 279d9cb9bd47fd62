//! How answers show what a search asks of places: in steps of the grid.
use crate::lists::push_comma;
use sc_expr::{Geom, Rects};
use sc_geom::{GridBox, Pt, Seq};
use std::alloc::{AllocError, Global};

fn push_path(out: &mut String, alloc: Global, path: &[Pt]) -> Result<(), AllocError> {
    out.push_str("[")?;
    for position in path {
        push_comma(out)?;
        let (x, y) = (position.x, position.y);
        let text = format!(in alloc; "[{x},{y}]")?;
        out.push_str(text.as_str())?;
    }
    out.push_str("]")
}

fn push_paths(out: &mut String, alloc: Global, paths: &[Seq<Pt>]) -> Result<(), AllocError> {
    out.push_str("[")?;
    for path in paths {
        push_comma(out)?;
        push_path(out, alloc, path.as_slice())?;
    }
    out.push_str("]")
}

fn push_areas(out: &mut String, alloc: Global, areas: &[Seq<Seq<Pt>>]) -> Result<(), AllocError> {
    out.push_str("[")?;
    for area in areas {
        push_comma(out)?;
        push_paths(out, alloc, area.as_slice())?;
    }
    out.push_str("]")
}

/// Adds a geometry's points, lines and areas.
pub fn push_geometry(out: &mut String, alloc: Global, geometry: &Geom) -> Result<(), AllocError> {
    out.push_str("{\"points\":")?;
    push_path(out, alloc, geometry.points())?;
    out.push_str(",\"lines\":")?;
    push_paths(out, alloc, geometry.lines())?;
    out.push_str(",\"areas\":")?;
    push_areas(out, alloc, geometry.areas())?;
    out.push_str("}")
}

fn push_box(out: &mut String, alloc: Global, sides: &GridBox) -> Result<(), AllocError> {
    let (west, south, east, north) = (sides.west(), sides.south(), sides.east(), sides.north());
    let text = format!(in alloc; "[{west},{south},{east},{north}]")?;
    out.push_str(text.as_str())
}

/// Adds the one or two boxes.
pub fn push_rects(out: &mut String, alloc: Global, rects: &Rects) -> Result<(), AllocError> {
    out.push_str("[")?;
    push_box(out, alloc, &rects.first)?;
    if let Some(second) = rects.second {
        out.push_str(",")?;
        push_box(out, alloc, &second)?;
    }
    out.push_str("]")
}
