//! What the types of an expression's parts keep, told for the whole expression, so that contracts above can rest on it.
//! These functions compute nothing.

ghost use Rattle.std.specs.Prelude.{All, IsUtf8};
ghost use Rattle.sc_expr.specs.Kept.{IsKeptScalar, IsKeptShape, IsKept};

use crate::expr::Expr;
use crate::scalar::{Scalar, Shape};
use sc_base::Text;

fn text_keeps(text: &Text)
    ensures { IsUtf8 text.now }
{
    text.bytes();
}

#[tactic(auto, using(crate::proofs::Keeping::property_kept, crate::proofs::Keeping::text_kept, crate::proofs::Keeping::number_kept, crate::proofs::Keeping::truth_kept, crate::proofs::Keeping::moment_kept, crate::proofs::Keeping::folded_kept))]
fn scalar_keeps(scalar: &Scalar)
    ensures { IsKeptScalar scalar.now }
{
    match scalar {
        Scalar::Prop(name) => text_keeps(name),
        Scalar::Text(text) => text_keeps(text),
        Scalar::Number(number) => {
            number.neg();
        }
        Scalar::Truth(_) => {}
        Scalar::Moment(moment) => {
            moment.nanoseconds();
        }
        Scalar::Folded(inner) => scalar_keeps(inner.get()),
    }
}

fn scalars_keep(scalars: &[Scalar])
    ensures { All IsKeptScalar scalars.now }
{
    for scalar in scalars {
        scalar_keeps(scalar);
    }
}

fn shape_keeps(shape: &Shape)
    ensures { IsKeptShape shape.now }
{
    match shape {
        Shape::Prop(name) => text_keeps(name),
        Shape::Geom(geometry) => {
            geometry.points();
        }
    }
}

#[cycle(kept)]
fn members_keep(members: &[Expr])
    ensures { All IsKept members.now }
{
    for member in members {
        expr_keeps(member);
    }
}

#[cycle(kept)]
#[tactic(auto, using(crate::proofs::Keeping::const_kept, crate::proofs::Keeping::and_kept, crate::proofs::Keeping::or_kept, crate::proofs::Keeping::not_kept, crate::proofs::Keeping::compare_kept, crate::proofs::Keeping::is_null_kept, crate::proofs::Keeping::between_kept, crate::proofs::Keeping::among_kept, crate::proofs::Keeping::like_kept, crate::proofs::Keeping::meets_kept))]
pub(crate) fn expr_keeps(expr: &Expr)
    ensures { IsKept expr.now }
{
    match expr {
        Expr::Const(_) => {}
        Expr::And(members) => members_keep(members.as_slice()),
        Expr::Or(members) => members_keep(members.as_slice()),
        Expr::Not(member) => expr_keeps(member.get()),
        Expr::Compare(_, left, right) => {
            scalar_keeps(left);
            scalar_keeps(right);
        }
        Expr::IsNull(operand) => scalar_keeps(operand),
        Expr::Between(operand, low, high) => {
            scalar_keeps(operand);
            scalar_keeps(low);
            scalar_keeps(high);
        }
        Expr::Among(operand, listed) => {
            scalar_keeps(operand);
            scalars_keep(listed.as_slice());
        }
        Expr::Like(operand, pattern) => {
            scalar_keeps(operand);
            text_keeps(&pattern.text);
        }
        Expr::Meets(left, right) => {
            shape_keeps(left);
            shape_keeps(right);
        }
    }
}
