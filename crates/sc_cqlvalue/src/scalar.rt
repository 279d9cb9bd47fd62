ghost use Rattle.std.specs.Prelude.{◌≡◌, OnOk, IfOk};
ghost use Rattle.sc_cqlvalue.specs.Values as values;

use crate::literal::{bytes_of, day_of, dec_of, instant_of, name_of, text_of};
use crate::put::note;
use crate::state::State;
use sc_base::{Boxed, Text};
use sc_expr::{Pattern, Scalar};
use sc_grammar::Token;
use std::alloc::{AllocError, Global};

pub(crate) fn property_of(
    alloc: Global,
    text: &[u8],
    token: Token,
) -> Result<Option<Scalar>, AllocError>
    ensures { IfOk result (λ scalar. scalar ≡ values.property_of text.now token) }
{
    let name = name_of(alloc, token.class, bytes_of(text, token))?;
    Ok(name.map(|name| Scalar::Prop(name)))
}

pub(crate) fn text_scalar_of(
    alloc: Global,
    text: &[u8],
    token: Token,
) -> Result<Option<Scalar>, AllocError>
    ensures { IfOk result (λ scalar. scalar ≡ values.text_scalar_of text.now token) }
{
    let text = text_of(alloc, bytes_of(text, token))?;
    Ok(text.map(|text| Scalar::Text(text)))
}

pub(crate) fn number_scalar_of(text: &[u8], token: Token) -> Option<Scalar>
    ensures { result ≡ values.number_scalar_of text.now token }
{
    dec_of(bytes_of(text, token)).map(|number| Scalar::Number(number))
}

pub(crate) fn instant_scalar_of(
    alloc: Global,
    text: &[u8],
    token: Token,
) -> Result<Option<Scalar>, AllocError>
    ensures { IfOk result (λ scalar. scalar ≡ values.instant_scalar_of text.now token) }
{
    let instant = instant_of(alloc, bytes_of(text, token))?;
    Ok(instant.map(|instant| Scalar::Moment(instant)))
}

pub(crate) fn day_scalar_of(
    alloc: Global,
    text: &[u8],
    token: Token,
) -> Result<Option<Scalar>, AllocError>
    ensures { IfOk result (λ scalar. scalar ≡ values.day_scalar_of text.now token) }
{
    let midnight = day_of(alloc, bytes_of(text, token))?;
    Ok(midnight.map(|midnight| Scalar::Moment(midnight)))
}

pub(crate) fn fold(alloc: Global, state: &mut State) -> Result<(), AllocError>
    ensures { OnOk result (state.new ≡ values.folded state.old) }
{
    match state.scalars.pop() {
        None => Ok(()),
        Some(scalar) => {
            let inner = Boxed::new(alloc, scalar)?;
            state.scalars.push(Scalar::Folded(inner))
        }
    }
}

/// The text of the last token as a pattern.
pub(crate) fn put_pattern(alloc: Global, text: &[u8], state: &mut State) -> Result<(), AllocError>
    ensures { OnOk result (state.new ≡ values.with_pattern (values.pattern_text_of text.now state.old.token) state.old) }
{
    let text = match text_of(alloc, bytes_of(text, state.token))? {
        Some(text) => text,
        None => {
            note(state.token.from, state);
            Text::from_string(String::new(alloc))
        }
    };
    state.pattern = Some(Pattern {
        text,
        folded: false,
    });
    Ok(())
}

pub(crate) fn fold_pattern(state: &mut State)
    ensures { state.new ≡ values.pattern_folded state.old }
{
    state.pattern = match state.pattern.take() {
        None => None,
        Some(pattern) => Some(Pattern {
            folded: true,
            ..pattern
        }),
    };
}
