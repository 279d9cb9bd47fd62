ghost use Rattle.std.specs.Prelude.{◌≡◌, true, Some, MatchResult, IfOk, All, length, map};
ghost use Rattle.sc_expr.specs.Form.{IsFormed};
ghost use Rattle.sc_cqljson.specs.Operators.{expression, arguments, is_expression, takes, roles_of};
ghost use Rattle.sc_cqljson.specs.Heads.{call, head_of, operator_of};
ghost use Rattle.sc_cqljson.specs.Spells.{Spells, Applied, SpellAll};
ghost use Rattle.sc_cqljson.specs.Unfit.{Unfit, UnfitAmong};
ghost use Rattle.sc_cqljson.specs.Told.{Tells, Later, number_behind};

use crate::arguments::{
    read_between, read_comparison, read_in, read_intersection, read_like, read_null,
};
use crate::head::{Head, args_of, head_of, operator_in};
use crate::numbers::{behind, number_behind, number_of};
use crate::operator::Operator;
use crate::words::args_name;
use sc_base::{Boxed, Seq};
use sc_expr::{CqlFault, Expr};
use sc_json::Json;
use std::alloc::Global;

/// The expression that stands behind these.
#[cycle(expression)]
fn expression_behind(alloc: Global, before: &[Json], arg: &Json) -> Result<Expr, CqlFault>
    ensures formed { IfOk result IsFormed }
    ensures answer { MatchResult result (Spells arg.now) (Tells (Later (number_behind before.now) (Unfit expression arg.now))) }
{
    match read_expression(alloc, arg) {
        Ok(member) => Ok(member),
        Err(fault) => Err(behind(number_behind(before), fault)),
    }
}

/// The expressions that the arguments of `and` or `or` are.
#[cycle(expression)]
fn read_members(alloc: Global, args: &[Json]) -> Result<Vec<Expr>, CqlFault>
    ensures formed { IfOk result (λ members. (length members.items ≡ length args.now) × All IsFormed members.items) }
    ensures answer { MatchResult result (λ members. SpellAll args.now members.items) (Tells (UnfitAmong (map (λ _. expression) args.now) args.now)) }
{
    let mut members = Vec::with_capacity(alloc, args.len())?;
    for (i, arg) in args.iter().enumerate() {
        members.push(expression_behind(alloc, &args[..i], arg)?)?;
    }
    Ok(members)
}

/// An operator on its arguments, of which there are as many as it may have. A place counts from the list of arguments.
#[cycle(expression)]
fn read_applied(alloc: Global, operator: Operator, args: &[Json]) -> Result<Expr, CqlFault>
    requires gives { is_expression operator ≡ true }
    requires count { takes operator (length args.now) ≡ true }
    ensures formed { IfOk result IsFormed }
    ensures answer { MatchResult result (Applied operator args.now) (Tells (UnfitAmong (roles_of (arguments expression operator) args.now) args.now)) }
{
    match operator {
        Operator::And => Ok(Expr::And(Seq::of(read_members(alloc, args)?))),
        Operator::Or => Ok(Expr::Or(Seq::of(read_members(alloc, args)?))),
        Operator::Not => {
            let member = expression_behind(alloc, &args[..0], &args[0])?;
            Ok(Expr::Not(Boxed::new(alloc, member)?))
        }
        Operator::Compare(op) => read_comparison(alloc, op, args),
        Operator::IsNull => read_null(alloc, args),
        Operator::Between => read_between(alloc, args),
        Operator::In => read_in(alloc, args),
        Operator::Like => read_like(alloc, args),
        Operator::Intersects => read_intersection(alloc, args),
        Operator::CaseI => unreachable!(),
    }
}

/// An object that calls an operator of expressions.
#[cycle(expression)]
fn read_fitting(alloc: Global, tree: &Json, operator: Operator) -> Result<Expr, CqlFault>
    requires calls { operator_of tree.now ≡ Some operator }
    requires gives { is_expression operator ≡ true }
    ensures formed { IfOk result IsFormed }
    ensures answer { MatchResult result (Spells tree.now) (Tells (Unfit expression tree.now)) }
{
    match read_applied(alloc, operator, args_of(tree, operator)?) {
        Ok(expr) => Ok(expr),
        Err(fault) => Err(behind(number_of(tree, args_name()), fault)),
    }
}

#[cycle(expression)]
fn read_call(alloc: Global, tree: &Json, op: &Json) -> Result<Expr, CqlFault>
    requires { head_of tree.now ≡ call op.now }
    ensures formed { IfOk result IsFormed }
    ensures answer { MatchResult result (Spells tree.now) (Tells (Unfit expression tree.now)) }
{
    let operator = operator_in(tree, op)?;
    match operator {
        Operator::CaseI => Err(CqlFault::Syntax { at: 0 }),
        _ => read_fitting(alloc, tree, operator),
    }
}

/// The expression that a tree is.
#[cycle(expression)]
pub(crate) fn read_expression(alloc: Global, tree: &Json) -> Result<Expr, CqlFault>
    ensures formed { IfOk result IsFormed }
    ensures answer { MatchResult result (Spells tree.now) (Tells (Unfit expression tree.now)) }
{
    match tree {
        Json::Truth(truth) => Ok(Expr::Const(*truth)),
        Json::Object(_) => match head_of(tree) {
            Head::Call(op) => read_call(alloc, tree, op),
            _ => Err(CqlFault::Syntax { at: 0 }),
        },
        _ => Err(CqlFault::Syntax { at: 0 }),
    }
}
