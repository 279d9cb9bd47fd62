ghost use Rattle.std.specs.Prelude.{◌≡◌, ◌||◌, IfOk, OnErr, IsTrue, map};
ghost use Rattle.std.specs.List.{list_any};
ghost use Rattle.std.specs.Option.{option_map};
ghost use Rattle.sc_expr.specs.declared.expr.CompOp.TheVariants.{Eq, Ge, Le};
ghost use Rattle.sc_eval.specs.Property as property;
ghost use Rattle.sc_eval.specs.Held.{held};
ghost use Rattle.sc_eval.specs.Comparison.{all3, and3, any3, compared, if_known, known};
ghost use Rattle.sc_eval.specs.Meaning.{any_true, folds, is_absent, is_folding, liked, met, shape_in, truth_in, value_in};

use crate::comparison::{known, not3};
use crate::like::is_like;
use crate::operand::{Operand, compared_operands, folded_text, is_absent, value_in};
use crate::value::Value;
use sc_base::Text;
use sc_cross::meets;
use sc_expr::{CompOp, Expr, Filter, Pattern, Scalar, Shape, Truth3};
use sc_geom::Geom;
use sc_item::Item;
use sc_sort::{Queryable, named};
use std::alloc::{AllocError, Global};

/// How two scalars compare in an item.
fn compare(
    alloc: Global,
    op: CompOp,
    left: &Scalar,
    right: &Scalar,
    item: &Item,
) -> Result<Truth3, AllocError>
    ensures value { IfOk result (λ t. t ≡ compared op (value_in item.now left.now) (value_in item.now right.now)) }
    ensures memory { OnErr result (IsTrue (is_folding left.now || is_folding right.now)) }
{
    let left = value_in(alloc, left, item)?;
    let right = value_in(alloc, right, item)?;
    Ok(compared_operands(op, &left, &right))
}

/// Whether a scalar has no value in an item.
fn is_null(alloc: Global, scalar: &Scalar, item: &Item) -> Result<Truth3, AllocError>
    ensures value { IfOk result (λ t. t ≡ known (is_absent (value_in item.now scalar.now))) }
    ensures memory { OnErr result (IsTrue (is_folding scalar.now)) }
{
    let scalar = value_in(alloc, scalar, item)?;
    Ok(known(is_absent(&scalar)))
}

/// A truth, or unknown.
fn if_known(truth: Truth3, unknown: bool) -> Truth3
    ensures { result ≡ if_known truth unknown }
{
    if unknown { Truth3::Unknown } else { truth }
}

fn and3(a: Truth3, b: Truth3) -> Truth3
    ensures { result ≡ and3 a b }
{
    match (a, b) {
        (Truth3::False, _) => Truth3::False,
        (Truth3::True, b) => b,
        (Truth3::Unknown, Truth3::False) => Truth3::False,
        (Truth3::Unknown, _) => Truth3::Unknown,
    }
}

fn is_between(
    alloc: Global,
    scalar: &Scalar,
    low: &Scalar,
    high: &Scalar,
    item: &Item,
) -> Result<Truth3, AllocError>
    ensures value { IfOk result (λ t. t ≡ and3 (compared Ge (value_in item.now scalar.now) (value_in item.now low.now)) (compared Le (value_in item.now scalar.now) (value_in item.now high.now))) }
    ensures memory { OnErr result (IsTrue (is_folding scalar.now || (is_folding low.now || is_folding high.now))) }
{
    let scalar = value_in(alloc, scalar, item)?;
    let low = value_in(alloc, low, item)?;
    let high = value_in(alloc, high, item)?;
    let above = compared_operands(CompOp::Ge, &scalar, &low);
    let below = compared_operands(CompOp::Le, &scalar, &high);
    Ok(and3(above, below))
}

/// Whether a value equals one of the scalars.
#[tactic(auto, using(crate::proofs::Truths::any_unknown, crate::proofs::Truths::any_decided, crate::proofs::Truths::any_ends))]
fn equals_one(
    alloc: Global,
    value: &Operand,
    listed: &[Scalar],
    item: &Item,
) -> Result<Truth3, AllocError>
    ensures value { IfOk result (λ t. t ≡ any3 (map (λ s. compared Eq (held value.now) (value_in item.now s)) listed.now)) }
    ensures memory { OnErr result (IsTrue (list_any is_folding listed.now)) }
{
    let mut unknown = false;
    for scalar in listed {
        let other = value_in(alloc, scalar, item)?;
        match compared_operands(CompOp::Eq, value, &other) {
            Truth3::True => return Ok(Truth3::True),
            Truth3::False => {}
            Truth3::Unknown => unknown = true,
        }
    }
    Ok(if_known(Truth3::False, unknown))
}

fn is_among(
    alloc: Global,
    scalar: &Scalar,
    listed: &[Scalar],
    item: &Item,
) -> Result<Truth3, AllocError>
    ensures value { IfOk result (λ t. t ≡ any3 (map (λ s. compared Eq (value_in item.now scalar.now) (value_in item.now s)) listed.now)) }
    ensures memory { OnErr result (IsTrue (is_folding scalar.now || list_any is_folding listed.now)) }
{
    let scalar = value_in(alloc, scalar, item)?;
    equals_one(alloc, &scalar, listed, item)
}

fn like_text(alloc: Global, text: &Text, pattern: &Pattern) -> Result<Truth3, AllocError>
    ensures value { IfOk result (λ t. t ≡ liked (property.text text.now) pattern.now) }
    ensures memory { OnErr result (IsTrue pattern.now.folded) }
{
    if pattern.folded {
        let folded = folded_text(alloc, pattern.text.as_str())?;
        return Ok(known(is_like(alloc, folded.as_str(), text.as_str())));
    }
    Ok(known(is_like(alloc, pattern.text.as_str(), text.as_str())))
}

fn like_operand(alloc: Global, operand: &Operand, pattern: &Pattern) -> Result<Truth3, AllocError>
    ensures value { IfOk result (λ t. t ≡ liked (held operand.now) pattern.now) }
    ensures memory { OnErr result (IsTrue pattern.now.folded) }
{
    match operand {
        Operand::Folded(text) => like_text(alloc, text, pattern),
        Operand::Lent(Value::Text(text)) => like_text(alloc, text, pattern),
        Operand::Lent(_) => Ok(Truth3::Unknown),
    }
}

fn is_like_pattern(
    alloc: Global,
    scalar: &Scalar,
    pattern: &Pattern,
    item: &Item,
) -> Result<Truth3, AllocError>
    ensures value { IfOk result (λ t. t ≡ liked (value_in item.now scalar.now) pattern.now) }
    ensures memory { OnErr result (IsTrue (is_folding scalar.now || pattern.now.folded)) }
{
    let scalar = value_in(alloc, scalar, item)?;
    like_operand(alloc, &scalar, pattern)
}

fn shape_of<'a>(shape: &'a Shape, item: &'a Item) -> Option<&'a Geom>
    ensures { option_map (λ g. g.now) result ≡ shape_in item.now shape.now }
{
    match shape {
        Shape::Geom(geometry) => Some(geometry),
        Shape::Prop(name) => match named(name.as_str()) {
            Queryable::Geometry => item.geom(),
            _ => None,
        },
    }
}

fn met(a: Option<&Geom>, b: Option<&Geom>) -> Truth3
    ensures { result ≡ met (option_map (λ g. g.now) a.entry) (option_map (λ g. g.now) b.entry) }
{
    match (a, b) {
        (Some(a), Some(b)) => known(meets(a, b)),
        _ => Truth3::Unknown,
    }
}

#[cycle(eval)]
fn all_of(alloc: Global, members: &[Expr], item: &Item) -> Result<Truth3, AllocError>
    ensures value { IfOk result (λ t. t ≡ all3 (map (truth_in item.now) members.now)) }
    ensures memory { OnErr result (IsTrue (any_true (map folds members.now))) }
{
    let mut unknown = false;
    for member in members {
        match truth_of(alloc, member, item)? {
            Truth3::False => return Ok(Truth3::False),
            Truth3::True => {}
            Truth3::Unknown => unknown = true,
        }
    }
    Ok(if_known(Truth3::True, unknown))
}

#[cycle(eval)]
fn any_of(alloc: Global, members: &[Expr], item: &Item) -> Result<Truth3, AllocError>
    ensures value { IfOk result (λ t. t ≡ any3 (map (truth_in item.now) members.now)) }
    ensures memory { OnErr result (IsTrue (any_true (map folds members.now))) }
{
    let mut unknown = false;
    for member in members {
        match truth_of(alloc, member, item)? {
            Truth3::True => return Ok(Truth3::True),
            Truth3::False => {}
            Truth3::Unknown => unknown = true,
        }
    }
    Ok(if_known(Truth3::False, unknown))
}

/// The truth of an expression of an item.
#[cycle(eval)]
fn truth_of(alloc: Global, expr: &Expr, item: &Item) -> Result<Truth3, AllocError>
    ensures value { IfOk result (λ t. t ≡ truth_in item.now expr.now) }
    ensures memory { OnErr result (IsTrue (folds expr.now)) }
{
    match expr {
        Expr::Const(truth) => Ok(known(*truth)),
        Expr::And(members) => all_of(alloc, members.as_slice(), item),
        Expr::Or(members) => any_of(alloc, members.as_slice(), item),
        Expr::Not(member) => Ok(not3(truth_of(alloc, member.get(), item)?)),
        Expr::Compare(op, left, right) => compare(alloc, *op, left, right, item),
        Expr::IsNull(scalar) => is_null(alloc, scalar, item),
        Expr::Between(scalar, low, high) => is_between(alloc, scalar, low, high, item),
        Expr::Among(scalar, listed) => is_among(alloc, scalar, listed.as_slice(), item),
        Expr::Like(scalar, pattern) => is_like_pattern(alloc, scalar, pattern, item),
        Expr::Meets(left, right) => Ok(met(shape_of(left, item), shape_of(right, item))),
    }
}

/// What a filter is of an item: true, false or unknown. Memory is needed for CASEI alone: LIKE takes some for a pattern with
/// backslashes, but does without where there is none.
pub fn eval(alloc: Global, filter: &Filter, item: &Item) -> Result<Truth3, AllocError>
    ensures value { IfOk result (λ t. t ≡ truth_in item.now filter.now) }
    ensures memory { OnErr result (IsTrue (folds filter.now)) }
{
    truth_of(alloc, filter.expr(), item)
}
