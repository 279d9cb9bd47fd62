ghost use Rattle.std.specs.Prelude.{◌≡◌, IfOk};
ghost use Rattle.sc_expr.specs.declared.expr.Expr.{Expr};
ghost use Rattle.sc_cqljson.specs.Filters.{IsCqlTree};
ghost use Rattle.sc_cqltree.specs.Written.{written};

use crate::expressions::expr_tree;
use sc_cqljson::laws::one_answer;
use sc_expr::Filter;
use sc_json::Json;
use std::alloc::{AllocError, Global};

/// That a tree which is this filter is no other. Takes no time.
fn no_other_filter(tree: &Json, filter: &Filter)
    requires { IsCqlTree tree.now filter.now }
    ensures { (other : Expr) → IsCqlTree tree.now other → other ≡ filter.now }
{
    one_answer();
}

/// Writes a filter as a tree of CQL2 JSON (OGC 21-065r2, Annex B), which is read as this filter and as no other.
///
/// An operator is an object of `op` and `args`, in this order. Numbers are canonical literals, a moment is the `timestamp`
/// of its text in UTC, and coordinates are decimal texts of degrees. A geometry of one part is a `Point`, `LineString` or
/// `Polygon`, any other a `GeometryCollection` of its points, lines and areas in this order. `AllocError` is want of memory,
/// which may come of any filter.
pub fn write_tree(alloc: Global, filter: &Filter) -> Result<Json, AllocError>
    ensures tree { IfOk result (λ tree. tree ≡ written filter.now) }
    ensures read { IfOk result (λ tree. IsCqlTree tree filter.now) }
    ensures alone { IfOk result (λ tree. (other : Expr) → IsCqlTree tree other → other ≡ filter.now) }
{
    let tree = expr_tree(alloc, filter.expr())?;
    no_other_filter(&tree, filter);
    Ok(tree)
}
