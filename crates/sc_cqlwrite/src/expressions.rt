//! Expressions. Where memory runs out, these functions may have added a part.
ghost use Rattle.std.specs.Prelude.{◌≡◌, OnOk, map};
ghost use Rattle.sc_cqlwrite.specs.Tokens as tokens;
ghost use Rattle.sc_cqlwrite.specs.Tokens.{between};
ghost use Rattle.sc_cqlwrite.specs.Spelling.{with_tokens};
ghost use Rattle.sc_cqlwrite.specs.Written.{phrase_of, tokens_of, member_tokens};

use crate::predicates::{
    push_among, push_between, push_comparison, push_like, push_meets, push_null,
};
use crate::scalars::push_truth;
use crate::spelling::Spelling;
use sc_expr::Expr;
use std::alloc::{AllocError, Global};

/// Whether an expression is And, Or or Not.
fn is_joined(expr: &Expr) -> bool
    ensures { result ≡ (phrase_of expr.now).is_joined }
{
    match expr {
        Expr::Const(_) => false,
        Expr::And(_) => true,
        Expr::Or(_) => true,
        Expr::Not(_) => true,
        Expr::Compare(_, _, _) => false,
        Expr::IsNull(_) => false,
        Expr::Between(_, _, _) => false,
        Expr::Among(_, _) => false,
        Expr::Like(_, _) => false,
        Expr::Meets(_, _) => false,
    }
}

/// Adds a member of And, Or or Not, in parentheses where it is one of these itself.
#[cycle(push)]
#[tactic(auto, using(crate::proofs::Spellings::tokens_append))]
fn push_member(out: &mut Spelling, alloc: Global, member: &Expr) -> Result<(), AllocError>
    ensures { OnOk result (out.new ≡ with_tokens out.old (member_tokens member.now)) }
{
    if !is_joined(member) {
        return push_expr(out, alloc, member);
    }
    out.opening()?;
    push_expr(out, alloc, member)?;
    out.closing()
}

/// Adds members with a word between them.
#[cycle(push)]
fn push_chain(
    out: &mut Spelling,
    alloc: Global,
    word: &str,
    members: &[Expr],
) -> Result<(), AllocError>
    ensures { OnOk result (out.new ≡ with_tokens out.old (between (tokens.word word.now) (map member_tokens members.now))) }
{
    let mut is_first = true;
    for member in members {
        out.join(is_first, word)?;
        is_first = false;
        push_member(out, alloc, member)?;
    }
    Ok(())
}

/// Adds an expression.
#[cycle(push)]
pub(crate) fn push_expr(out: &mut Spelling, alloc: Global, expr: &Expr) -> Result<(), AllocError>
    ensures { OnOk result (out.new ≡ with_tokens out.old (tokens_of expr.now)) }
{
    match expr {
        Expr::Const(truth) => push_truth(out, *truth),
        Expr::And(members) => push_chain(out, alloc, "AND", members.as_slice()),
        Expr::Or(members) => push_chain(out, alloc, "OR", members.as_slice()),
        Expr::Not(member) => {
            out.word("NOT")?;
            push_member(out, alloc, member.get())
        }
        Expr::Compare(op, left, right) => push_comparison(out, alloc, *op, left, right),
        Expr::IsNull(operand) => push_null(out, alloc, operand),
        Expr::Between(operand, low, high) => push_between(out, alloc, operand, low, high),
        Expr::Among(operand, scalars) => push_among(out, alloc, operand, scalars.as_slice()),
        Expr::Like(operand, pattern) => push_like(out, alloc, operand, pattern),
        Expr::Meets(left, right) => push_meets(out, left, right),
    }
}
