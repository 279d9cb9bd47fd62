//! Geometries and shapes. Where memory runs out, these functions may have added a part.
ghost use Rattle.std.specs.Prelude.{◌≡◌, ◌↔◌, ◌&&◌, OnOk, IsTrue, map, length};
ghost use Rattle.sc_cqlwrite.specs.Tokens as tokens;
ghost use Rattle.sc_cqlwrite.specs.Tokens.{between};
ghost use Rattle.sc_cqlwrite.specs.Spelling.{with_tokens, is_none, going_on};
ghost use Rattle.sc_cqlwrite.specs.Geometries.{position_tokens, line_tokens, area_tokens, point_part, line_part, area_part, parts_of, geometry_tokens, shape_tokens};

use crate::spelling::Spelling;
use sc_base::Seq;
use sc_expr::Shape;
use sc_geom::{Geom, Pt};
use std::alloc::AllocError;

fn push_position(out: &mut Spelling, position: &Pt) -> Result<(), AllocError>
    ensures { OnOk result (out.new ≡ with_tokens out.old (position_tokens position.now)) }
{
    out.coordinate(position.x)?;
    out.coordinate(position.y)
}

/// Adds positions with commas between them.
fn push_positions(out: &mut Spelling, positions: &[Pt]) -> Result<(), AllocError>
    ensures { OnOk result (out.new ≡ with_tokens out.old (between tokens.comma (map position_tokens positions.now))) }
{
    let mut is_first = true;
    for position in positions {
        out.separate(is_first)?;
        is_first = false;
        push_position(out, position)?;
    }
    Ok(())
}

/// Adds the positions of a line or of a ring.
#[tactic(auto, using(crate::proofs::Spellings::tokens_append))]
fn push_line(out: &mut Spelling, line: &[Pt]) -> Result<(), AllocError>
    ensures { OnOk result (out.new ≡ with_tokens out.old (line_tokens line.now)) }
{
    out.opening()?;
    push_positions(out, line)?;
    out.closing()
}

/// Adds rings with commas between them.
fn push_rings(out: &mut Spelling, rings: &[Seq<Pt>]) -> Result<(), AllocError>
    ensures { OnOk result (out.new ≡ with_tokens out.old (between tokens.comma (map line_tokens rings.now))) }
{
    let mut is_first = true;
    for ring in rings {
        out.separate(is_first)?;
        is_first = false;
        push_line(out, ring.as_slice())?;
    }
    Ok(())
}

#[tactic(auto, using(crate::proofs::Spellings::tokens_append))]
fn push_area(out: &mut Spelling, rings: &[Seq<Pt>]) -> Result<(), AllocError>
    ensures { OnOk result (out.new ≡ with_tokens out.old (area_part rings.now)) }
{
    out.function("POLYGON")?;
    out.opening()?;
    push_rings(out, rings)?;
    out.closing()
}

fn push_points(out: &mut Spelling, points: &[Pt]) -> Result<(), AllocError>
    ensures { OnOk result (out.new ≡ with_tokens out.old (between tokens.comma (map point_part points.now))) }
{
    let mut is_first = true;
    for point in points {
        out.separate(is_first)?;
        is_first = false;
        push_point(out, point)?;
    }
    Ok(())
}

#[tactic(auto, using(crate::proofs::Spellings::tokens_append))]
fn push_point(out: &mut Spelling, point: &Pt) -> Result<(), AllocError>
    ensures { OnOk result (out.new ≡ with_tokens out.old (point_part point.now)) }
{
    out.function("POINT")?;
    out.opening()?;
    push_position(out, point)?;
    out.closing()
}

/// Adds lines, the first of them behind a comma unless it is the first part.
fn push_lines(out: &mut Spelling, is_first: bool, lines: &[Seq<Pt>]) -> Result<(), AllocError>
    ensures { OnOk result (out.new ≡ with_tokens out.old (going_on is_first tokens.comma (map line_part lines.now))) }
{
    let mut is_first = is_first;
    for line in lines {
        out.separate(is_first)?;
        is_first = false;
        out.function("LINESTRING")?;
        push_line(out, line.as_slice())?;
    }
    Ok(())
}

/// Adds areas, the first of them behind a comma unless it is the first part.
fn push_areas(out: &mut Spelling, is_first: bool, areas: &[Seq<Seq<Pt>>]) -> Result<(), AllocError>
    ensures { OnOk result (out.new ≡ with_tokens out.old (going_on is_first tokens.comma (map area_part areas.now))) }
{
    let mut is_first = is_first;
    for area in areas {
        out.separate(is_first)?;
        is_first = false;
        push_area(out, area.as_slice())?;
    }
    Ok(())
}

/// Whether a geometry has neither points nor lines.
#[tactic(auto, using(crate::proofs::Parts::none_length))]
fn has_areas_alone(geometry: &Geom) -> bool
    ensures { result ≡ (is_none geometry.now.points && is_none geometry.now.lines) }
{
    geometry.points().is_empty() && geometry.lines().is_empty()
}

/// Adds points, lines and areas in this order, with commas between them.
fn push_parts(out: &mut Spelling, geometry: &Geom) -> Result<(), AllocError>
    ensures { OnOk result (out.new ≡ with_tokens out.old (between tokens.comma (parts_of geometry.now))) }
{
    let is_first_line = geometry.points().is_empty();
    let is_first_area = has_areas_alone(geometry);
    push_points(out, geometry.points())?;
    push_lines(out, is_first_line, geometry.lines())?;
    push_areas(out, is_first_area, geometry.areas())
}

#[tactic(auto, using(crate::proofs::Parts::parts_length))]
fn has_one_part(geometry: &Geom) -> bool
    ensures { IsTrue result ↔ (length (parts_of geometry.now) ≡ 1) }
{
    let paths = geometry
        .points()
        .len()
        .saturating_add(geometry.lines().len());
    paths.saturating_add(geometry.areas().len()) == 1
}

fn push_geometry(out: &mut Spelling, geometry: &Geom) -> Result<(), AllocError>
    ensures { OnOk result (out.new ≡ with_tokens out.old (geometry_tokens geometry.now)) }
{
    if has_one_part(geometry) {
        return push_parts(out, geometry);
    }
    out.function("GEOMETRYCOLLECTION")?;
    out.opening()?;
    push_parts(out, geometry)?;
    out.closing()
}

pub(crate) fn push_shape(out: &mut Spelling, shape: &Shape) -> Result<(), AllocError>
    ensures { OnOk result (out.new ≡ with_tokens out.old (shape_tokens shape.now)) }
{
    match shape {
        Shape::Prop(name) => out.name(name.as_str()),
        Shape::Geom(geometry) => push_geometry(out, geometry),
    }
}
