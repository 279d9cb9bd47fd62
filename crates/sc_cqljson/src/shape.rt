ghost use Rattle.std.specs.Prelude.{MatchResult, IfOk};
ghost use Rattle.sc_expr.specs.Form.{IsFormedShape};
ghost use Rattle.sc_cqljson.specs.Operators.{shape};
ghost use Rattle.sc_cqljson.specs.Spells.{SpellsShape};
ghost use Rattle.sc_cqljson.specs.Unfit.{Unfit};
ghost use Rattle.sc_cqljson.specs.Told.{Tells};

use crate::head::{Head, head_of, operator_in, read_name};
use crate::literal::{read_box, read_geometry};
use sc_expr::{CqlFault, Shape};
use sc_json::Json;
use std::alloc::Global;

/// The shape that a tree is in the place of one.
pub(crate) fn read_shape(alloc: Global, tree: &Json) -> Result<Shape, CqlFault>
    ensures formed { IfOk result IsFormedShape }
    ensures answer { MatchResult result (SpellsShape tree.now) (Tells (Unfit shape tree.now)) }
{
    let Json::Object(_) = tree else {
        return Err(CqlFault::Syntax { at: 0 });
    };
    match head_of(tree) {
        Head::Call(op) => {
            operator_in(tree, op)?;
            Err(CqlFault::Syntax { at: 0 })
        }
        Head::Property(value) => Ok(Shape::Prop(read_name(alloc, tree, value)?)),
        Head::Bbox(value) => Ok(Shape::Geom(read_box(alloc, value)?)),
        Head::Geometry => Ok(Shape::Geom(read_geometry(alloc, tree)?)),
        _ => Err(CqlFault::Syntax { at: 0 }),
    }
}
