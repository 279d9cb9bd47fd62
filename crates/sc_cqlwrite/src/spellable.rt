//! Which expressions have a text.
ghost use Rattle.std.specs.Prelude.{◌≡◌};
ghost use Rattle.std.specs.List.{list_any, flat_map};
ghost use Rattle.sc_cqlwrite.specs.Spellable.{ends_in_backslash, scalar_texts, texts_of, some_text_ends};

use sc_base::Text;
use sc_expr::{Expr, Scalar};

/// Whether the last byte of a text is a backslash.
#[tactic(auto, using(crate::proofs::Texts::last_ends))]
fn ends_in_backslash(text: &Text) -> bool
    ensures { result ≡ ends_in_backslash text.now }
{
    match text.bytes().last() {
        Some(byte) => *byte == b'\\',
        None => false,
    }
}

fn scalar_ends(scalar: &Scalar) -> bool
    ensures { result ≡ list_any ends_in_backslash (scalar_texts scalar.now) }
{
    match scalar {
        Scalar::Text(text) => ends_in_backslash(text),
        Scalar::Folded(inner) => scalar_ends(inner.get()),
        _ => false,
    }
}

fn any_scalar_ends(scalars: &[Scalar]) -> bool
    ensures { result ≡ list_any ends_in_backslash (flat_map scalar_texts scalars.now) }
{
    for scalar in scalars {
        if scalar_ends(scalar) {
            return true;
        }
    }
    false
}

#[cycle(ends)]
fn any_member_ends(members: &[Expr]) -> bool
    ensures { result ≡ list_any ends_in_backslash (flat_map texts_of members.now) }
{
    for member in members {
        if some_text_ends(member) {
            return true;
        }
    }
    false
}

/// Whether a text or a pattern of an expression ends in a backslash.
#[cycle(ends)]
#[tactic(auto, using(crate::proofs::Texts::any_append, crate::proofs::Texts::and_texts, crate::proofs::Texts::or_texts, crate::proofs::Texts::among_texts))]
pub(crate) fn some_text_ends(expr: &Expr) -> bool
    ensures { result ≡ some_text_ends expr.now }
{
    match expr {
        Expr::Const(_) => false,
        Expr::And(members) => any_member_ends(members.as_slice()),
        Expr::Or(members) => any_member_ends(members.as_slice()),
        Expr::Not(member) => some_text_ends(member.get()),
        Expr::Compare(_, left, right) => scalar_ends(left) || scalar_ends(right),
        Expr::IsNull(operand) => scalar_ends(operand),
        Expr::Between(operand, low, high) => {
            scalar_ends(operand) || scalar_ends(low) || scalar_ends(high)
        }
        Expr::Among(operand, scalars) => {
            scalar_ends(operand) || any_scalar_ends(scalars.as_slice())
        }
        Expr::Like(operand, pattern) => scalar_ends(operand) || ends_in_backslash(&pattern.text),
        Expr::Meets(_, _) => false,
    }
}
