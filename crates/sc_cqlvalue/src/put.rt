ghost use Rattle.std.specs.Prelude.{◌≡◌, OnOk, IfOk};
ghost use Rattle.sc_cqlvalue.specs.Values as values;

use crate::state::State;
use sc_base::Text;
use sc_expr::{Scalar, Shape};
use std::alloc::{AllocError, Global};

/// Notes the place of what can't be read.
pub(crate) fn note(place: usize, state: &mut State)
    ensures { state.new ≡ values.noted place state.old }
{
    let place = place as u64;
    state.bad = match state.bad {
        None => Some(place),
        Some(other) => Some(other.min(place)),
    };
}

/// Puts a literal, or notes its place.
pub(crate) fn put_literal(literal: Option<Scalar>, state: &mut State) -> Result<(), AllocError>
    ensures { OnOk result (state.new ≡ values.with_literal literal state.old) }
{
    match literal {
        Some(scalar) => state.scalars.push(scalar),
        None => {
            note(state.token.from, state);
            state.scalars.push(Scalar::Truth(false))
        }
    }
}

/// What stands for a shape that can't be read.
pub(crate) fn stand_in(alloc: Global) -> Result<Shape, AllocError>
    ensures { IfOk result (λ shape. shape ≡ values.stand_in) }
{
    Ok(Shape::Prop(Text::from_str(alloc, "geometry")?))
}

/// Puts a shape, or notes its place.
pub(crate) fn put_shape(
    alloc: Global,
    place: usize,
    shape: Option<Shape>,
    state: &mut State,
) -> Result<(), AllocError>
    ensures { OnOk result (state.new ≡ values.with_shape_at place shape state.old) }
{
    match shape {
        Some(shape) => state.shapes.push(shape),
        None => {
            note(place, state);
            state.shapes.push(stand_in(alloc)?)
        }
    }
}
