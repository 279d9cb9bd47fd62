use crate::depth::depth_of;
use crate::expr::Expr;
use crate::fault::ExprFault;
use crate::kept::expr_keeps;
use crate::nodes::nodes_of;
use crate::same::is_same_expr;
use std::marker::Model;

/// The greatest depth of a filter.
const DEPTH: u32 = 24;

/// The most nodes that a filter has.
const NODES: u64 = 1_024;

/// An expression that keeps the conditions of [`Expr::checked`], is at most 24 deep and has at most 1,024 nodes.
/// Contracts see it as its expression. So it is walked, compared and dropped within 24 calls of one another.
#[derive(Debug, Drop)]
pub struct Filter {
    expr: Expr,
}

impl Model for Filter {
    ghost use Rattle.sc_expr.specs.declared.expr.Expr.{Expr};
    ghost use Rattle.sc_expr.specs.contracts.expr.Expr as expressions;

    ghost Value = { Expr };

    ghost coded = { expressions.the_row.coded };

    ghost use Rattle.sc_expr.specs.Filter.{IsFilter};

    ghost view = { λ f. f.expr };

    ghost invariant = { λ f. IsFilter f.expr };
}

impl Filter {
    ghost use Rattle.std.specs.Prelude.{◌≡◌, ◌↔◌, IsTrue};
    ghost use Rattle.sc_expr.specs.Filter.{IsFilter};

    /// The expression, and that every filter keeps its conditions.
    pub fn expr(&self) -> &Expr
        ensures expr { result.now ≡ self.now }
        ensures kept { IsFilter self.now }
    {
        &self.expr
    }

    /// Whether two filters are the same expression, part by part: `a = b` isn't `b = a`. Takes no memory.
    pub fn is_same(&self, other: &Filter) -> bool
        ensures { IsTrue result ↔ (self.now ≡ other.now) }
    {
        is_same_expr(&self.expr, &other.expr)
    }
}

impl Expr {
    ghost use Rattle.std.specs.Prelude.{◌≡◌, MatchResult};
    ghost use Rattle.sc_expr.specs.Form.{IsFormed};
    ghost use Rattle.sc_expr.specs.Filter.{IsFilter, IsFault};

    /// This expression as a filter. Every expression, scalar, pattern and shape in it is a node; a leaf has depth 1. It
    /// is `TooDeep` exactly where the depth is above 24, and else `TooManyNodes` exactly where there are more than
    /// 1,024 nodes. Takes no memory.
    ///
    /// The condition is that `And` and `Or` have at least 2 members and `Among` at least 1, that no name is empty, and
    /// that a geometry has at most 1,000 positions.
    ///
    /// An expression is walked, and then dropped where it is refused, by one call a level. Whoever builds one out of
    /// input bounds its depth, as readers do by the brackets that they take.
    pub fn checked(self) -> Result<Filter, ExprFault>
        requires { IsFormed self }
        ensures { MatchResult result (λ filter. (filter ≡ self) × IsFilter filter) (λ fault. IsFault fault self) }
    {
        let depth = depth_of(&self);
        if depth > DEPTH {
            return Err(ExprFault::TooDeep { depth });
        }
        let count = nodes_of(&self);
        if count > NODES {
            return Err(ExprFault::TooManyNodes { count });
        }
        expr_keeps(&self);
        Ok(Filter { expr: self })
    }
}
