ghost use Rattle.std.specs.Prelude.{◌≡◌, map, sum};
ghost use Rattle.sc_expr.specs.Measure.{nodes, scalar_nodes};
ghost use Rattle.sc_expr.specs.Filter.{in_bits};

use crate::expr::Expr;
use crate::scalar::Scalar;

/// The number of nodes of an expression.
#[cycle(nodes)]
pub(crate) fn nodes_of(expr: &Expr) -> u64
    ensures { result ≡ in_bits 64 (nodes expr.now) }
{
    match expr {
        Expr::Const(_) => 1,
        Expr::And(members) => nodes_of_all(members.as_slice()).saturating_add(1),
        Expr::Or(members) => nodes_of_all(members.as_slice()).saturating_add(1),
        Expr::Not(member) => nodes_of(member.get()).saturating_add(1),
        Expr::Compare(_, left, right) => {
            let left = nodes_of_scalar(left);
            left.saturating_add(nodes_of_scalar(right))
                .saturating_add(1)
        }
        Expr::IsNull(operand) => nodes_of_scalar(operand).saturating_add(1),
        Expr::Between(operand, low, high) => {
            let ends = nodes_of_scalar(low).saturating_add(nodes_of_scalar(high));
            ends.saturating_add(nodes_of_scalar(operand))
                .saturating_add(1)
        }
        Expr::Among(operand, listed) => {
            let listed = nodes_of_scalars(listed.as_slice());
            listed
                .saturating_add(nodes_of_scalar(operand))
                .saturating_add(1)
        }
        Expr::Like(operand, _) => nodes_of_scalar(operand).saturating_add(2),
        Expr::Meets(_, _) => 3,
    }
}

#[cycle(nodes)]
fn nodes_of_all(members: &[Expr]) -> u64
    ensures { result ≡ in_bits 64 (sum (map nodes members.now)) }
{
    let mut total = 0u64;
    for member in members {
        total = total.saturating_add(nodes_of(member));
    }
    total
}

fn nodes_of_scalar(scalar: &Scalar) -> u64
    ensures { result ≡ in_bits 64 (scalar_nodes scalar.now) }
{
    match scalar {
        Scalar::Folded(inner) => nodes_of_scalar(inner.get()).saturating_add(1),
        _ => 1,
    }
}

fn nodes_of_scalars(scalars: &[Scalar]) -> u64
    ensures { result ≡ in_bits 64 (sum (map scalar_nodes scalars.now)) }
{
    let mut total = 0u64;
    for scalar in scalars {
        total = total.saturating_add(nodes_of_scalar(scalar));
    }
    total
}
