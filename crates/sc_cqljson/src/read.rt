ghost use Rattle.std.specs.Prelude.{MatchResult};
ghost use Rattle.sc_cqljson.specs.Filters.{IsCqlTree, IsTreeFault};

use crate::expression::read_expression;
use sc_expr::{CqlFault, ExprFault, Filter};
use sc_json::Json;
use std::alloc::Global;

/// The filter that a tree of CQL2 JSON is (OGC 21-065r2, Annex B). Each value of the tree has a number, counted from 0 in the
/// order of the text, an object or list before what stands in it. An object is read by the first of the members `op`,
/// `property`, `timestamp`, `date`, `bbox` and `type` that it has, and its other members are ignored, as are those behind
/// a first one of their name.
///
/// The fault is that of the value with the least number that doesn't fit: `BadLiteral` at the object of a timestamp, date,
/// box or geometry that can't be read or has more than 1,000 positions, and else `Syntax`, at the object where a member or the
/// right number of arguments is missing, at the value of `op` where no operator has that name, and at the value itself where it
/// is of another kind than its place asks for. Where all fit it is `TooDeep` where the filter is deeper than 24, and then
/// `TooManyNodes` where it has more than 1,024 nodes. `OutOfMemory` may come of any tree. A number stays at the greatest of
/// its type.
#[tactic(auto, using(crate::proofs::Ending::told_fault, crate::proofs::Ending::checked_tree, crate::proofs::Ending::too_deep, crate::proofs::Ending::too_many))]
pub fn read_tree(alloc: Global, tree: &Json) -> Result<Filter, CqlFault>
    ensures { MatchResult result (λ filter. IsCqlTree tree.now filter) (λ fault. IsTreeFault fault tree.now) }
{
    match read_expression(alloc, tree)?.checked() {
        Ok(filter) => Ok(filter),
        Err(ExprFault::TooDeep { .. }) => Err(CqlFault::TooDeep),
        Err(ExprFault::TooManyNodes { .. }) => Err(CqlFault::TooManyNodes),
    }
}
