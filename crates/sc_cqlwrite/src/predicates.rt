//! What compares scalars and relates shapes. Where memory runs out, these functions may have added a part.
ghost use Rattle.std.specs.Prelude.{◌≡◌, OnOk, map};
ghost use Rattle.sc_cqlwrite.specs.Tokens as tokens;
ghost use Rattle.sc_cqlwrite.specs.Tokens.{between};
ghost use Rattle.sc_cqlwrite.specs.Spelling.{with_tokens};
ghost use Rattle.sc_cqlwrite.specs.Scalars.{scalar_tokens};
ghost use Rattle.sc_cqlwrite.specs.Predicates.{comparison_tokens, null_tokens, between_tokens, among_tokens, like_tokens, meets_tokens};

use crate::geometry::push_shape;
use crate::scalars::{push_pattern, push_scalar};
use crate::spelling::Spelling;
use sc_expr::{CompOp, Pattern, Scalar, Shape};
use std::alloc::{AllocError, Global};

#[tactic(auto, using(crate::proofs::Spellings::tokens_append), unfolding(crate::specs::Predicates::comparison_tokens))]
pub(crate) fn push_comparison(
    out: &mut Spelling,
    alloc: Global,
    op: CompOp,
    left: &Scalar,
    right: &Scalar,
) -> Result<(), AllocError>
    ensures { OnOk result (out.new ≡ with_tokens out.old (comparison_tokens op left.now right.now)) }
{
    push_scalar(out, alloc, left)?;
    out.sign(op)?;
    push_scalar(out, alloc, right)
}

#[tactic(auto, using(crate::proofs::Spellings::tokens_append), unfolding(crate::specs::Predicates::null_tokens))]
pub(crate) fn push_null(
    out: &mut Spelling,
    alloc: Global,
    operand: &Scalar,
) -> Result<(), AllocError>
    ensures { OnOk result (out.new ≡ with_tokens out.old (null_tokens operand.now)) }
{
    push_scalar(out, alloc, operand)?;
    out.word("IS")?;
    out.word("NULL")
}

#[tactic(auto, using(crate::proofs::Spellings::tokens_append), unfolding(crate::specs::Predicates::between_tokens))]
pub(crate) fn push_between(
    out: &mut Spelling,
    alloc: Global,
    operand: &Scalar,
    low: &Scalar,
    high: &Scalar,
) -> Result<(), AllocError>
    ensures { OnOk result (out.new ≡ with_tokens out.old (between_tokens operand.now low.now high.now)) }
{
    push_scalar(out, alloc, operand)?;
    out.word("BETWEEN")?;
    push_scalar(out, alloc, low)?;
    out.word("AND")?;
    push_scalar(out, alloc, high)
}

/// Adds scalars with commas between them.
fn push_scalars(out: &mut Spelling, alloc: Global, scalars: &[Scalar]) -> Result<(), AllocError>
    ensures { OnOk result (out.new ≡ with_tokens out.old (between tokens.comma (map scalar_tokens scalars.now))) }
{
    let mut is_first = true;
    for scalar in scalars {
        out.separate(is_first)?;
        is_first = false;
        push_scalar(out, alloc, scalar)?;
    }
    Ok(())
}

#[tactic(auto, using(crate::proofs::Spellings::tokens_append), unfolding(crate::specs::Predicates::among_tokens))]
pub(crate) fn push_among(
    out: &mut Spelling,
    alloc: Global,
    operand: &Scalar,
    scalars: &[Scalar],
) -> Result<(), AllocError>
    ensures { OnOk result (out.new ≡ with_tokens out.old (among_tokens operand.now scalars.now)) }
{
    push_scalar(out, alloc, operand)?;
    out.word("IN")?;
    out.opening()?;
    push_scalars(out, alloc, scalars)?;
    out.closing()
}

#[tactic(auto, using(crate::proofs::Spellings::tokens_append), unfolding(crate::specs::Predicates::like_tokens))]
pub(crate) fn push_like(
    out: &mut Spelling,
    alloc: Global,
    operand: &Scalar,
    pattern: &Pattern,
) -> Result<(), AllocError>
    ensures { OnOk result (out.new ≡ with_tokens out.old (like_tokens operand.now pattern.now)) }
{
    push_scalar(out, alloc, operand)?;
    out.word("LIKE")?;
    push_pattern(out, pattern)
}

#[tactic(auto, using(crate::proofs::Spellings::tokens_append), unfolding(crate::specs::Predicates::meets_tokens))]
pub(crate) fn push_meets(out: &mut Spelling, left: &Shape, right: &Shape) -> Result<(), AllocError>
    ensures { OnOk result (out.new ≡ with_tokens out.old (meets_tokens left.now right.now)) }
{
    out.function("S_INTERSECTS")?;
    out.opening()?;
    push_shape(out, left)?;
    out.comma()?;
    push_shape(out, right)?;
    out.closing()
}
