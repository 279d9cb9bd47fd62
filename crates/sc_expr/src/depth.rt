ghost use Rattle.std.specs.Prelude.{◌≡◌, map};
ghost use Rattle.sc_expr.specs.Measure.{depth, scalar_depth, greatest};
ghost use Rattle.sc_expr.specs.Filter.{in_bits};

use crate::expr::Expr;
use crate::scalar::Scalar;

/// The depth of an expression.
#[cycle(depth)]
pub(crate) fn depth_of(expr: &Expr) -> u32
    ensures { result ≡ in_bits 32 (depth expr.now) }
{
    match expr {
        Expr::Const(_) => 1,
        Expr::And(members) => deepest(members.as_slice()).saturating_add(1),
        Expr::Or(members) => deepest(members.as_slice()).saturating_add(1),
        Expr::Not(member) => depth_of(member.get()).saturating_add(1),
        Expr::Compare(_, left, right) => {
            let left = depth_of_scalar(left);
            left.max(depth_of_scalar(right)).saturating_add(1)
        }
        Expr::IsNull(operand) => depth_of_scalar(operand).saturating_add(1),
        Expr::Between(operand, low, high) => {
            let ends = depth_of_scalar(low).max(depth_of_scalar(high));
            ends.max(depth_of_scalar(operand)).saturating_add(1)
        }
        Expr::Among(operand, listed) => {
            let listed = deepest_scalar(listed.as_slice());
            listed.max(depth_of_scalar(operand)).saturating_add(1)
        }
        Expr::Like(operand, _) => depth_of_scalar(operand).max(1).saturating_add(1),
        Expr::Meets(_, _) => 2,
    }
}

/// The depth of the deepest of expressions; 0 of none.
#[cycle(depth)]
fn deepest(members: &[Expr]) -> u32
    ensures { result ≡ in_bits 32 (greatest (map depth members.now)) }
{
    let mut greatest = 0;
    for member in members {
        greatest = depth_of(member).max(greatest);
    }
    greatest
}

fn depth_of_scalar(scalar: &Scalar) -> u32
    ensures { result ≡ in_bits 32 (scalar_depth scalar.now) }
{
    match scalar {
        Scalar::Folded(inner) => depth_of_scalar(inner.get()).saturating_add(1),
        _ => 1,
    }
}

fn deepest_scalar(scalars: &[Scalar]) -> u32
    ensures { result ≡ in_bits 32 (greatest (map scalar_depth scalars.now)) }
{
    let mut greatest = 0;
    for scalar in scalars {
        greatest = depth_of_scalar(scalar).max(greatest);
    }
    greatest
}
