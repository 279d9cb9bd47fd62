ghost use Rattle.std.specs.Prelude.{◌≡◌};
ghost use Rattle.sc_json.specs.Member.{member_value};
ghost use Rattle.sc_item.specs.Words.{geometry_name};
ghost use Rattle.sc_item.specs.Feature.{IsPlaceOf, IsShaped};
ghost use Rattle.sc_item.specs.Shape.{Shaped};

use crate::fault::ItemFault;
use crate::trees::{is_null, member};
use crate::words::geometry_name;
use sc_geom::{Geom, GeomFault, GridBox, box_of, geom_of_json};
use sc_json::Json;
use std::alloc::Global;

/// The most positions of an item's geometry.
const MOST_POSITIONS: u32 = 10_000;

/// The geometry of an item.
pub(crate) fn shape_of(alloc: Global, tree: &Json) -> Result<Option<Geom>, ItemFault>
    ensures { Shaped (member_value tree.now geometry_name) result }
{
    let Some(value) = member(tree, geometry_name()) else {
        return Err(ItemFault::BadGeometry { fault: None });
    };
    if is_null(value) {
        return Ok(None);
    }
    match geom_of_json(alloc, value, MOST_POSITIONS) {
        Ok(geom) => Ok(Some(geom)),
        Err(GeomFault::OutOfMemory) => Err(ItemFault::OutOfMemory),
        Err(fault) => Err(ItemFault::BadGeometry { fault: Some(fault) }),
    }
}

/// The smallest box of a geometry.
pub(crate) fn place_of(geom: &Option<Geom>) -> Option<GridBox>
    ensures place { IsPlaceOf geom.now result }
    ensures shaped { IsShaped geom.now }
{
    match geom {
        Some(geom) => {
            // Every geometry is one.
            let _points = geom.points();
            Some(box_of(geom))
        }
        None => None,
    }
}
