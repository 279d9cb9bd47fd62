//! Scalars and patterns. Where memory runs out, these functions may have added a part.
ghost use Rattle.std.specs.Prelude.{◌≡◌, OnOk};
ghost use Rattle.sc_cqlwrite.specs.Spelling.{with_token, with_tokens};
ghost use Rattle.sc_cqlwrite.specs.Moment.{moment_text};
ghost use Rattle.sc_cqlwrite.specs.Scalars.{truth_token, moment_tokens, scalar_tokens, pattern_tokens};

use crate::spelling::Spelling;
use sc_expr::{Pattern, Scalar};
use sc_time::{Instant, write_instant};
use std::alloc::{AllocError, Global};

pub(crate) fn push_truth(out: &mut Spelling, truth: bool) -> Result<(), AllocError>
    ensures { OnOk result (out.new ≡ with_token out.old (truth_token truth)) }
{
    if truth {
        out.word("TRUE")
    } else {
        out.word("FALSE")
    }
}

#[tactic(auto, using(crate::proofs::Moments::moment_is))]
fn push_moment(out: &mut Spelling, alloc: Global, at: Instant) -> Result<(), AllocError>
    ensures { OnOk result (out.new ≡ with_tokens out.old (moment_tokens (moment_text at))) }
{
    let instant = write_instant(alloc, at)?;
    out.function("TIMESTAMP")?;
    out.opening()?;
    out.text(instant.as_str())?;
    out.closing()
}

#[tactic(auto, using(crate::proofs::Spellings::tokens_append))]
pub(crate) fn push_scalar(
    out: &mut Spelling,
    alloc: Global,
    scalar: &Scalar,
) -> Result<(), AllocError>
    ensures { OnOk result (out.new ≡ with_tokens out.old (scalar_tokens scalar.now)) }
{
    match scalar {
        Scalar::Prop(name) => out.name(name.as_str()),
        Scalar::Text(text) => out.text(text.as_str()),
        Scalar::Number(number) => out.number(number),
        Scalar::Truth(truth) => push_truth(out, *truth),
        Scalar::Moment(moment) => push_moment(out, alloc, *moment),
        Scalar::Folded(inner) => {
            out.function("CASEI")?;
            out.opening()?;
            push_scalar(out, alloc, inner.get())?;
            out.closing()
        }
    }
}

pub(crate) fn push_pattern(out: &mut Spelling, pattern: &Pattern) -> Result<(), AllocError>
    ensures { OnOk result (out.new ≡ with_tokens out.old (pattern_tokens pattern.now)) }
{
    if !pattern.folded {
        return out.text(pattern.text.as_str());
    }
    out.function("CASEI")?;
    out.opening()?;
    out.text(pattern.text.as_str())?;
    out.closing()
}
