ghost use Rattle.std.specs.Prelude.{◌≡◌, ◌∷◌, [], ◌↔◌, IsTrue, IsSome, IfOk, IfSome, List, Option};
ghost use Rattle.sc_geom.specs.Point.{IsInWorld};
ghost use Rattle.sc_geom.specs.Sketch.{Sketch};
ghost use Rattle.sc_geom.specs.Tree.{number_of};
ghost use Rattle.sc_geom.specs.Drawn.{position_of, positions, line_of, area_of, all_read, each, drawn, lines_only, points_only, areas_only};
ghost use Rattle.sc_geom.specs.Building.{Reads, Adds, IsPath, IsArea, IsDraft};
ghost use Rattle.std.specs.Option.{option_map};

use crate::area::Area;
use crate::draft::Draft;
use crate::fault::GeomFault;
use crate::kind::Kind;
use crate::path::Path;
use crate::place::place_of;
use crate::point::Pt;
use crate::tree::{elements_of, number_of};
use sc_json::Json;
use std::alloc::Global;

fn are_numbers(trees: &[Json]) -> bool
    ensures { IsTrue result ↔ IsSome (all_read number_of trees.now) }
{
    for tree in trees {
        match number_of(tree) {
            Some(_) => {}
            None => return false,
        }
    }
    true
}

/// A position (RFC 7946 §3.1.1), which is none where it is outside the world.
#[tactic(auto, unfolding(crate::specs::Drawn::position_of))]
fn read_position(tree: &Json) -> Result<Option<Pt>, GeomFault>
    ensures read { Reads (λ place expected. place ≡ expected) result (position_of tree.now) }
    ensures in_world { IfOk result (λ place. IfSome place IsInWorld) }
{
    let Some(elements) = elements_of(tree) else {
        return Err(GeomFault::BadShape);
    };
    let Some((first, behind)) = elements.split_first() else {
        return Err(GeomFault::BadShape);
    };
    let Some((second, more)) = behind.split_first() else {
        return Err(GeomFault::BadShape);
    };
    let Some(x) = number_of(first) else {
        return Err(GeomFault::BadShape);
    };
    let Some(y) = number_of(second) else {
        return Err(GeomFault::BadShape);
    };
    if !are_numbers(more) {
        return Err(GeomFault::BadShape);
    }
    Ok(place_of(x, y))
}

/// The positions of a list that isn't empty.
fn read_positions(alloc: Global, tree: &Json) -> Result<Path, GeomFault>
    ensures { Reads IsPath result (positions tree.now) }
{
    let Some(elements) = elements_of(tree) else {
        return Err(GeomFault::BadShape);
    };
    let mut path = Path::new(alloc, elements.len())?;
    for element in elements {
        path.push(read_position(element)?)?;
    }
    Ok(path)
}

/// The positions of a line (RFC 7946 §3.1.4).
#[tactic(auto, unfolding(crate::specs::Drawn::line_of))]
fn read_line(alloc: Global, tree: &Json) -> Result<Path, GeomFault>
    ensures { Reads IsPath result (line_of tree.now) }
{
    let path = read_positions(alloc, tree)?;
    if path.len() < 2 {
        return Err(GeomFault::BadShape);
    }
    Ok(path)
}

/// The rings of a polygon (RFC 7946 §3.1.6).
#[tactic(auto, unfolding(crate::specs::Drawn::area_of))]
fn read_area(alloc: Global, tree: &Json) -> Result<Area, GeomFault>
    ensures { Reads IsArea result (area_of tree.now) }
{
    let Some(elements) = elements_of(tree) else {
        return Err(GeomFault::BadShape);
    };
    let mut area = Area::new(alloc, elements.len())?;
    for element in elements {
        area.push(read_positions(alloc, element)?)?;
    }
    Ok(area)
}

fn add_lines(alloc: Global, tree: &Json, draft: &mut Draft) -> Result<(), GeomFault>
    ensures { (s : Sketch) → IsDraft draft.old s →
        Adds result (option_map lines_only (each line_of tree.now)) s draft.new }
{
    let Some(elements) = elements_of(tree) else {
        return Err(GeomFault::BadShape);
    };
    draft.reserve_lines(elements.len())?;
    for element in elements {
        draft.add_line(read_line(alloc, element)?)?;
    }
    Ok(())
}

fn add_areas(alloc: Global, tree: &Json, draft: &mut Draft) -> Result<(), GeomFault>
    ensures { (s : Sketch) → IsDraft draft.old s →
        Adds result (option_map areas_only (each area_of tree.now)) s draft.new }
{
    let Some(elements) = elements_of(tree) else {
        return Err(GeomFault::BadShape);
    };
    draft.reserve_areas(elements.len())?;
    for element in elements {
        draft.add_area(read_area(alloc, element)?)?;
    }
    Ok(())
}

fn add_point(alloc: Global, tree: &Json, draft: &mut Draft) -> Result<(), GeomFault>
    ensures { (s : Sketch) → IsDraft draft.old s →
        Adds result (option_map (λ place. points_only (place ∷ [])) (position_of tree.now)) s draft.new }
{
    let mut path = Path::new(alloc, 1)?;
    path.push(read_position(tree)?)?;
    draft.add_points(path)?;
    Ok(())
}

/// Adds what the coordinates of a kind draw.
pub(crate) fn add_coordinates(
    alloc: Global,
    kind: Kind,
    tree: &Json,
    draft: &mut Draft,
) -> Result<(), GeomFault>
    ensures { (s : Sketch) → IsDraft draft.old s → Adds result (drawn kind tree.now) s draft.new }
{
    match kind {
        Kind::Point => add_point(alloc, tree, draft),
        Kind::MultiPoint => {
            draft.add_points(read_positions(alloc, tree)?)?;
            Ok(())
        }
        Kind::LineString => {
            draft.add_line(read_line(alloc, tree)?)?;
            Ok(())
        }
        Kind::MultiLineString => add_lines(alloc, tree, draft),
        Kind::Polygon => {
            draft.add_area(read_area(alloc, tree)?)?;
            Ok(())
        }
        Kind::MultiPolygon => add_areas(alloc, tree, draft),
        Kind::GeometryCollection => Err(GeomFault::BadShape),
    }
}
