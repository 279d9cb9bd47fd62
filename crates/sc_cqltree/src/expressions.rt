//! The trees of expressions.
ghost use Rattle.std.specs.Prelude.{◌≡◌, IfOk, map};
ghost use Rattle.sc_cqlwrite.specs.Tokens.{sign_of};
ghost use Rattle.sc_cqltree.specs.Predicates.{comparison_tree, null_tree, between_tree, among_tree, like_tree, meets_tree};
ghost use Rattle.sc_cqltree.specs.Written.{written};

use crate::geometries::shape_tree;
use crate::objects::call;
use crate::scalars::{pattern_tree, scalar_tree, scalar_trees};
use sc_base::Seq;
use sc_expr::{CompOp, Expr, Pattern, Scalar, Shape};
use sc_json::Json;
use std::alloc::{AllocError, Global};

/// The name of a comparison.
fn sign_of(op: CompOp) -> &'static str
    ensures { result.now ≡ sign_of op }
{
    match op {
        CompOp::Eq => "=",
        CompOp::Ne => "<>",
        CompOp::Lt => "<",
        CompOp::Gt => ">",
        CompOp::Le => "<=",
        CompOp::Ge => ">=",
    }
}

#[tactic(auto, unfolding(crate::specs::Predicates::comparison_tree))]
fn comparison_tree(
    alloc: Global,
    op: CompOp,
    left: &Scalar,
    right: &Scalar,
) -> Result<Json, AllocError>
    ensures { IfOk result (λ tree. tree ≡ comparison_tree op left.now right.now) }
{
    let left = scalar_tree(alloc, left)?;
    let right = scalar_tree(alloc, right)?;
    call(alloc, sign_of(op), vec![in alloc; left, right]?)
}

#[tactic(auto, unfolding(crate::specs::Predicates::null_tree))]
fn null_tree(alloc: Global, operand: &Scalar) -> Result<Json, AllocError>
    ensures { IfOk result (λ tree. tree ≡ null_tree operand.now) }
{
    let operand = scalar_tree(alloc, operand)?;
    call(alloc, "isNull", vec![in alloc; operand]?)
}

#[tactic(auto, unfolding(crate::specs::Predicates::between_tree))]
fn between_tree(
    alloc: Global,
    operand: &Scalar,
    low: &Scalar,
    high: &Scalar,
) -> Result<Json, AllocError>
    ensures { IfOk result (λ tree. tree ≡ between_tree operand.now low.now high.now) }
{
    let operand = scalar_tree(alloc, operand)?;
    let low = scalar_tree(alloc, low)?;
    let high = scalar_tree(alloc, high)?;
    call(alloc, "between", vec![in alloc; operand, low, high]?)
}

#[tactic(auto, unfolding(crate::specs::Predicates::among_tree))]
fn among_tree(alloc: Global, operand: &Scalar, scalars: &[Scalar]) -> Result<Json, AllocError>
    ensures { IfOk result (λ tree. tree ≡ among_tree operand.now scalars.now) }
{
    let operand = scalar_tree(alloc, operand)?;
    let listed = Json::List(Seq::of(scalar_trees(alloc, scalars)?));
    call(alloc, "in", vec![in alloc; operand, listed]?)
}

#[tactic(auto, unfolding(crate::specs::Predicates::like_tree))]
fn like_tree(alloc: Global, operand: &Scalar, pattern: &Pattern) -> Result<Json, AllocError>
    ensures { IfOk result (λ tree. tree ≡ like_tree operand.now pattern.now) }
{
    let operand = scalar_tree(alloc, operand)?;
    let pattern = pattern_tree(alloc, pattern)?;
    call(alloc, "like", vec![in alloc; operand, pattern]?)
}

#[tactic(auto, unfolding(crate::specs::Predicates::meets_tree))]
fn meets_tree(alloc: Global, left: &Shape, right: &Shape) -> Result<Json, AllocError>
    ensures { IfOk result (λ tree. tree ≡ meets_tree left.now right.now) }
{
    let left = shape_tree(alloc, left)?;
    let right = shape_tree(alloc, right)?;
    call(alloc, "s_intersects", vec![in alloc; left, right]?)
}

/// The trees of the members of And or Or, in their order.
#[cycle(write)]
fn member_trees(alloc: Global, members: &[Expr]) -> Result<Vec<Json>, AllocError>
    ensures { IfOk result (λ trees. trees.items ≡ map written members.now) }
{
    let mut trees = Vec::with_capacity(alloc, members.len())?;
    for member in members {
        trees.push(expr_tree(alloc, member)?)?;
    }
    Ok(trees)
}

#[cycle(write)]
pub(crate) fn expr_tree(alloc: Global, expr: &Expr) -> Result<Json, AllocError>
    ensures { IfOk result (λ tree. tree ≡ written expr.now) }
{
    match expr {
        Expr::Const(truth) => Ok(Json::Truth(*truth)),
        Expr::And(members) => call(alloc, "and", member_trees(alloc, members.as_slice())?),
        Expr::Or(members) => call(alloc, "or", member_trees(alloc, members.as_slice())?),
        Expr::Not(member) => {
            let inside = expr_tree(alloc, member.get())?;
            call(alloc, "not", vec![in alloc; inside]?)
        }
        Expr::Compare(op, left, right) => comparison_tree(alloc, *op, left, right),
        Expr::IsNull(operand) => null_tree(alloc, operand),
        Expr::Between(operand, low, high) => between_tree(alloc, operand, low, high),
        Expr::Among(operand, scalars) => among_tree(alloc, operand, scalars.as_slice()),
        Expr::Like(operand, pattern) => like_tree(alloc, operand, pattern),
        Expr::Meets(left, right) => meets_tree(alloc, left, right),
    }
}
