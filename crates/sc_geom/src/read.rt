ghost use Rattle.std.specs.Prelude.{◌≡◌, Some};
ghost use Rattle.sc_json.specs.declared.tree.Json.{Json as JsonTree};
ghost use Rattle.sc_geom.specs.declared.kind.Kind.TheVariants.{GeometryCollection};
ghost use Rattle.sc_geom.specs.Sketch.{Sketch};
ghost use Rattle.sc_geom.specs.Tree.{members_of};
ghost use Rattle.sc_geom.specs.Depicts.{kind_in};
ghost use Rattle.sc_geom.specs.Building.{IsDraft, Depicted, AllDepicted};
ghost use Rattle.sc_geom.specs.Answers.{Answers};

use crate::coordinates::add_coordinates;
use crate::draft::Draft;
use crate::fault::GeomFault;
use crate::geom::Geom;
use crate::kind::{Kind, coordinates_name, geometries_name};
use crate::tree::{index_named, kind_in, member_named};
use sc_json::{Json, Member};
use std::alloc::Global;

/// Adds what a geometry object depicts.
#[cycle(geometry)]
fn add_geometry(alloc: Global, tree: &Json, draft: &mut Draft) -> Result<(), GeomFault>
    ensures { (s : Sketch) → IsDraft draft.old s → Depicted result tree.now s draft.new }
{
    match tree {
        Json::Object(members) => add_members(alloc, members.as_slice(), draft),
        _ => Err(GeomFault::BadShape),
    }
}

#[cycle(geometry)]
fn add_members(alloc: Global, members: &[Member], draft: &mut Draft) -> Result<(), GeomFault>
    ensures { (tree : JsonTree) (s : Sketch) → members_of tree ≡ Some members.now → IsDraft draft.old s →
        Depicted result tree s draft.new }
{
    let Some(kind) = kind_in(members) else {
        return Err(GeomFault::BadShape);
    };
    if kind == Kind::GeometryCollection {
        return add_collection(alloc, members, draft);
    }
    match member_named(members, coordinates_name()) {
        Some(coordinates) => add_coordinates(alloc, kind, coordinates, draft),
        None => Err(GeomFault::BadShape),
    }
}

#[cycle(geometry)]
fn add_collection(alloc: Global, members: &[Member], draft: &mut Draft) -> Result<(), GeomFault>
    ensures { (tree : JsonTree) (s : Sketch) → members_of tree ≡ Some members.now →
        kind_in members.now ≡ Some GeometryCollection → IsDraft draft.old s → Depicted result tree s draft.new }
{
    match index_named(members, geometries_name()) {
        Some(at) => match &members[at].value {
            Json::List(geometries) => add_geometries(alloc, geometries.as_slice(), draft),
            _ => Err(GeomFault::BadShape),
        },
        None => Err(GeomFault::BadShape),
    }
}

#[cycle(geometry)]
fn add_geometries(alloc: Global, trees: &[Json], draft: &mut Draft) -> Result<(), GeomFault>
    ensures { (s : Sketch) → IsDraft draft.old s → AllDepicted result trees.now s draft.new }
{
    for tree in trees {
        add_geometry(alloc, tree, draft)?;
    }
    Ok(())
}

/// The geometry that a tree is, of any of the seven kinds of RFC 7946 §3.1, with at most `most` positions.
///
/// Coordinates are rounded to the grid, ties away from zero. A position is a list of at least two numbers, longitude and
/// latitude first; what stands behind them has to be numbers and isn't kept. Of a `GeometryCollection` only
/// `geometries` is read, and it may be empty where a position stands elsewhere. The fault is the first that holds of
/// the whole tree, in the order of `GeomFault`; memory may run out at any place.
pub fn geom_of_json(alloc: Global, tree: &Json, most: u32) -> Result<Geom, GeomFault>
    ensures { Answers tree.now most result }
{
    let mut draft = Draft::new(alloc);
    add_geometry(alloc, tree, &mut draft)?;
    draft.finish(most)
}
