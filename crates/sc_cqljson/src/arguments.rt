//! Predicates by their arguments. A place counts from the list of arguments, which has the number 0.
ghost use Rattle.std.specs.Prelude.{◌≡◌, ◌≤◌, ◌∷◌, [], MatchResult, IfOk, All, length, map};
ghost use Rattle.sc_expr.specs.Form.{IsFormedScalar, IsFormedShape, IsFormed};
ghost use Rattle.sc_cqljson.specs.declared.operator.Operator.TheVariants.{Compare, IsNull, Between, In, Like, Intersects};
ghost use Rattle.sc_cqljson.specs.Operators.{scalar, pattern, shape, listed};
ghost use Rattle.sc_cqljson.specs.Spells.{SpellsScalar, SpellScalars, SpellsList, SpellsPattern, SpellsShape, Applied};
ghost use Rattle.sc_cqljson.specs.Unfit.{Unfit, UnfitAmong};
ghost use Rattle.sc_cqljson.specs.Told.{Tells, Later, number_behind};

use crate::numbers::{behind, number_behind};
use crate::scalar::{read_pattern, read_scalar};
use crate::shape::read_shape;
use sc_base::Seq;
use sc_expr::{CompOp, CqlFault, Expr, Pattern, Scalar, Shape};
use sc_json::Json;
use std::alloc::Global;

/// The scalar that stands behind these.
fn scalar_behind(alloc: Global, before: &[Json], arg: &Json) -> Result<Scalar, CqlFault>
    ensures formed { IfOk result IsFormedScalar }
    ensures answer { MatchResult result (SpellsScalar arg.now) (Tells (Later (number_behind before.now) (Unfit scalar arg.now))) }
{
    match read_scalar(alloc, arg) {
        Ok(scalar) => Ok(scalar),
        Err(fault) => Err(behind(number_behind(before), fault)),
    }
}

/// The pattern that stands behind these.
fn pattern_behind(alloc: Global, before: &[Json], arg: &Json) -> Result<Pattern, CqlFault>
    ensures { MatchResult result (SpellsPattern arg.now) (Tells (Later (number_behind before.now) (Unfit pattern arg.now))) }
{
    match read_pattern(alloc, arg) {
        Ok(pattern) => Ok(pattern),
        Err(fault) => Err(behind(number_behind(before), fault)),
    }
}

/// The shape that stands behind these.
fn shape_behind(alloc: Global, before: &[Json], arg: &Json) -> Result<Shape, CqlFault>
    ensures formed { IfOk result IsFormedShape }
    ensures answer { MatchResult result (SpellsShape arg.now) (Tells (Later (number_behind before.now) (Unfit shape arg.now))) }
{
    match read_shape(alloc, arg) {
        Ok(shape) => Ok(shape),
        Err(fault) => Err(behind(number_behind(before), fault)),
    }
}

/// The scalars that the elements of a list are.
fn read_elements(alloc: Global, elements: &[Json]) -> Result<Vec<Scalar>, CqlFault>
    ensures formed { IfOk result (λ list. All IsFormedScalar list.items) }
    ensures answer { MatchResult result (λ list. SpellScalars elements.now list.items)
        (Tells (UnfitAmong (map (λ _. scalar) elements.now) elements.now)) }
{
    let mut list = Vec::with_capacity(alloc, elements.len())?;
    for (i, element) in elements.iter().enumerate() {
        list.push(scalar_behind(alloc, &elements[..i], element)?)?;
    }
    Ok(list)
}

/// The list that `in` looks through, which isn't empty.
fn read_list(alloc: Global, tree: &Json) -> Result<Vec<Scalar>, CqlFault>
    ensures formed { IfOk result (λ list. (1 ≤ length list.items) × All IsFormedScalar list.items) }
    ensures answer { MatchResult result (λ list. SpellsList tree.now list.items) (Tells (Unfit listed tree.now)) }
{
    let Some(elements) = tree.as_list() else {
        return Err(CqlFault::Syntax { at: 0 });
    };
    if elements.is_empty() {
        return Err(CqlFault::Syntax { at: 0 });
    }
    read_elements(alloc, elements)
}

/// The list that stands behind these.
fn list_behind(alloc: Global, before: &[Json], arg: &Json) -> Result<Vec<Scalar>, CqlFault>
    ensures formed { IfOk result (λ list. (1 ≤ length list.items) × All IsFormedScalar list.items) }
    ensures answer { MatchResult result (λ list. SpellsList arg.now list.items) (Tells (Later (number_behind before.now) (Unfit listed arg.now))) }
{
    match read_list(alloc, arg) {
        Ok(list) => Ok(list),
        Err(fault) => Err(behind(number_behind(before), fault)),
    }
}

pub(crate) fn read_comparison(alloc: Global, op: CompOp, args: &[Json]) -> Result<Expr, CqlFault>
    requires { length args.now ≡ 2 }
    ensures formed { IfOk result IsFormed }
    ensures answer { MatchResult result (Applied (Compare op) args.now) (Tells (UnfitAmong (scalar ∷ scalar ∷ []) args.now)) }
{
    let left = scalar_behind(alloc, &args[..0], &args[0])?;
    let right = scalar_behind(alloc, &args[..1], &args[1])?;
    Ok(Expr::Compare(op, left, right))
}

pub(crate) fn read_null(alloc: Global, args: &[Json]) -> Result<Expr, CqlFault>
    requires { length args.now ≡ 1 }
    ensures formed { IfOk result IsFormed }
    ensures answer { MatchResult result (Applied IsNull args.now) (Tells (UnfitAmong (scalar ∷ []) args.now)) }
{
    let operand = scalar_behind(alloc, &args[..0], &args[0])?;
    Ok(Expr::IsNull(operand))
}

pub(crate) fn read_between(alloc: Global, args: &[Json]) -> Result<Expr, CqlFault>
    requires { length args.now ≡ 3 }
    ensures formed { IfOk result IsFormed }
    ensures answer { MatchResult result (Applied Between args.now) (Tells (UnfitAmong (scalar ∷ scalar ∷ scalar ∷ []) args.now)) }
{
    let operand = scalar_behind(alloc, &args[..0], &args[0])?;
    let low = scalar_behind(alloc, &args[..1], &args[1])?;
    let high = scalar_behind(alloc, &args[..2], &args[2])?;
    Ok(Expr::Between(operand, low, high))
}

pub(crate) fn read_in(alloc: Global, args: &[Json]) -> Result<Expr, CqlFault>
    requires { length args.now ≡ 2 }
    ensures formed { IfOk result IsFormed }
    ensures answer { MatchResult result (Applied In args.now) (Tells (UnfitAmong (scalar ∷ listed ∷ []) args.now)) }
{
    let operand = scalar_behind(alloc, &args[..0], &args[0])?;
    let list = list_behind(alloc, &args[..1], &args[1])?;
    Ok(Expr::Among(operand, Seq::of(list)))
}

pub(crate) fn read_like(alloc: Global, args: &[Json]) -> Result<Expr, CqlFault>
    requires { length args.now ≡ 2 }
    ensures formed { IfOk result IsFormed }
    ensures answer { MatchResult result (Applied Like args.now) (Tells (UnfitAmong (scalar ∷ pattern ∷ []) args.now)) }
{
    let operand = scalar_behind(alloc, &args[..0], &args[0])?;
    let pattern = pattern_behind(alloc, &args[..1], &args[1])?;
    Ok(Expr::Like(operand, pattern))
}

pub(crate) fn read_intersection(alloc: Global, args: &[Json]) -> Result<Expr, CqlFault>
    requires { length args.now ≡ 2 }
    ensures formed { IfOk result IsFormed }
    ensures answer { MatchResult result (Applied Intersects args.now) (Tells (UnfitAmong (shape ∷ shape ∷ []) args.now)) }
{
    let left = shape_behind(alloc, &args[..0], &args[0])?;
    let right = shape_behind(alloc, &args[..1], &args[1])?;
    Ok(Expr::Meets(left, right))
}
