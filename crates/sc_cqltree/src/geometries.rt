//! The trees of geometries (RFC 7946 §3.1) and shapes.
ghost use Rattle.std.specs.Prelude.{◌≡◌, ◌++◌, IfOk, OnOk, All, map};
ghost use Rattle.sc_geom.specs.Point.{IsInWorld};
ghost use Rattle.sc_cqltree.specs.Geometries.{position_tree, line_tree, area_tree, point_part, line_part, area_part, parts_of, geometry_tree, shape_tree};

use crate::decimals::coordinate_tree;
use crate::objects::shaped;
use crate::scalars::property_tree;
use sc_base::Seq;
use sc_expr::Shape;
use sc_geom::{Geom, Pt};
use sc_json::Json;
use std::alloc::{AllocError, Global};

fn position_tree(alloc: Global, position: &Pt) -> Result<Json, AllocError>
    requires { IsInWorld position.now }
    ensures { IfOk result (λ tree. tree ≡ position_tree position.now) }
{
    let longitude = coordinate_tree(alloc, position.x)?;
    let latitude = coordinate_tree(alloc, position.y)?;
    Ok(Json::List(Seq::of(vec![in alloc; longitude, latitude]?)))
}

/// The positions of a line or of a ring.
fn line_tree(alloc: Global, line: &[Pt]) -> Result<Json, AllocError>
    requires { All IsInWorld line.now }
    ensures { IfOk result (λ tree. tree ≡ line_tree line.now) }
{
    let mut positions = Vec::with_capacity(alloc, line.len())?;
    for position in line {
        positions.push(position_tree(alloc, position)?)?;
    }
    Ok(Json::List(Seq::of(positions)))
}

/// The rings of an area.
fn area_tree(alloc: Global, area: &[Seq<Pt>]) -> Result<Json, AllocError>
    requires { All (All IsInWorld) area.now }
    ensures { IfOk result (λ tree. tree ≡ area_tree area.now) }
{
    let mut rings = Vec::with_capacity(alloc, area.len())?;
    for ring in area {
        rings.push(line_tree(alloc, ring.as_slice())?)?;
    }
    Ok(Json::List(Seq::of(rings)))
}

fn point_part(alloc: Global, point: &Pt) -> Result<Json, AllocError>
    requires { IsInWorld point.now }
    ensures { IfOk result (λ tree. tree ≡ point_part point.now) }
{
    shaped(alloc, "Point", "coordinates", position_tree(alloc, point)?)
}

fn line_part(alloc: Global, line: &[Pt]) -> Result<Json, AllocError>
    requires { All IsInWorld line.now }
    ensures { IfOk result (λ tree. tree ≡ line_part line.now) }
{
    shaped(alloc, "LineString", "coordinates", line_tree(alloc, line)?)
}

fn area_part(alloc: Global, area: &[Seq<Pt>]) -> Result<Json, AllocError>
    requires { All (All IsInWorld) area.now }
    ensures { IfOk result (λ tree. tree ≡ area_part area.now) }
{
    shaped(alloc, "Polygon", "coordinates", area_tree(alloc, area)?)
}

/// Adds the trees of points. Where memory runs out, a part may have been added.
fn push_points(out: &mut Vec<Json>, alloc: Global, points: &[Pt]) -> Result<(), AllocError>
    requires { All IsInWorld points.now }
    ensures { OnOk result (out.new.items ≡ out.old.items ++ map point_part points.now) }
{
    for point in points {
        out.push(point_part(alloc, point)?)?;
    }
    Ok(())
}

/// Adds the trees of lines. Where memory runs out, a part may have been added.
fn push_lines(out: &mut Vec<Json>, alloc: Global, lines: &[Seq<Pt>]) -> Result<(), AllocError>
    requires { All (All IsInWorld) lines.now }
    ensures { OnOk result (out.new.items ≡ out.old.items ++ map line_part lines.now) }
{
    for line in lines {
        out.push(line_part(alloc, line.as_slice())?)?;
    }
    Ok(())
}

/// Adds the trees of areas. Where memory runs out, a part may have been added.
fn push_areas(out: &mut Vec<Json>, alloc: Global, areas: &[Seq<Seq<Pt>>]) -> Result<(), AllocError>
    requires { All (All (All IsInWorld)) areas.now }
    ensures { OnOk result (out.new.items ≡ out.old.items ++ map area_part areas.now) }
{
    for area in areas {
        out.push(area_part(alloc, area.as_slice())?)?;
    }
    Ok(())
}

/// The points, lines and areas of a geometry, in this order.
fn parts_of(alloc: Global, geometry: &Geom) -> Result<Vec<Json>, AllocError>
    ensures { IfOk result (λ parts. parts.items ≡ parts_of geometry.now) }
{
    let mut parts = Vec::new(alloc);
    push_points(&mut parts, alloc, geometry.points())?;
    push_lines(&mut parts, alloc, geometry.lines())?;
    push_areas(&mut parts, alloc, geometry.areas())?;
    Ok(parts)
}

fn geometry_tree(alloc: Global, geometry: &Geom) -> Result<Json, AllocError>
    ensures { IfOk result (λ tree. tree ≡ geometry_tree geometry.now) }
{
    let mut parts = parts_of(alloc, geometry)?;
    if parts.len() == 1 {
        return Ok(parts.swap_remove(0));
    }
    let geometries = Json::List(Seq::of(parts));
    shaped(alloc, "GeometryCollection", "geometries", geometries)
}

pub(crate) fn shape_tree(alloc: Global, shape: &Shape) -> Result<Json, AllocError>
    ensures { IfOk result (λ tree. tree ≡ shape_tree shape.now) }
{
    match shape {
        Shape::Prop(name) => property_tree(alloc, name),
        Shape::Geom(geometry) => geometry_tree(alloc, geometry),
    }
}
