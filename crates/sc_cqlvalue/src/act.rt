ghost use Rattle.std.specs.Prelude.{◌≡◌, OnOk};
ghost use Rattle.sc_cqlvalue.specs.Values as values;

use crate::literal::{bytes_of, dec_of};
use crate::put::{put_literal, put_shape};
use crate::state::State;
use crate::{chain, predicate, scalar, shape};
use sc_cqlgrammar::Mark;
use sc_expr::{CompOp, Scalar};
use std::alloc::{AllocError, Global};

/// What the mark makes, where it is one of shapes.
fn act_on_shapes(
    alloc: Global,
    text: &[u8],
    mark: Mark,
    state: &mut State,
) -> Result<(), AllocError>
    ensures { OnOk result (state.new ≡ values.does_to_shapes text.now mark state.old) }
{
    let token = state.token;
    match mark {
        Mark::NamedShape => {
            let shape = shape::named_shape_of(alloc, text, token)?;
            put_shape(alloc, token.from, shape, state)
        }
        Mark::Box => {
            shape::begin_box(alloc, state);
            Ok(())
        }
        Mark::Side => shape::put_side(dec_of(bytes_of(text, token)), state),
        Mark::Rectangles => shape::put_box(alloc, state),
        _ => Ok(()),
    }
}

/// What the mark makes, where it is one of scalars, patterns or shapes.
fn act_on_scalars(
    alloc: Global,
    text: &[u8],
    mark: Mark,
    state: &mut State,
) -> Result<(), AllocError>
    ensures { OnOk result (state.new ≡ values.does_to_scalars text.now mark state.old) }
{
    let token = state.token;
    match mark {
        Mark::True => state.scalars.push(Scalar::Truth(true)),
        Mark::False => state.scalars.push(Scalar::Truth(false)),
        Mark::Property => put_literal(scalar::property_of(alloc, text, token)?, state),
        Mark::Text => put_literal(scalar::text_scalar_of(alloc, text, token)?, state),
        Mark::Number => put_literal(scalar::number_scalar_of(text, token), state),
        Mark::Instant => put_literal(scalar::instant_scalar_of(alloc, text, token)?, state),
        Mark::Day => put_literal(scalar::day_scalar_of(alloc, text, token)?, state),
        Mark::Fold => scalar::fold(alloc, state),
        Mark::Pattern => scalar::put_pattern(alloc, text, state),
        Mark::FoldPattern => {
            scalar::fold_pattern(state);
            Ok(())
        }
        _ => act_on_shapes(alloc, text, mark, state),
    }
}

/// What the mark makes, where it is no chain.
fn act_by_test(alloc: Global, text: &[u8], mark: Mark, state: &mut State) -> Result<(), AllocError>
    ensures { OnOk result (state.new ≡ values.does_by_test text.now mark state.old) }
{
    match mark {
        Mark::Equal => predicate::compare(CompOp::Eq, state),
        Mark::NotEqual => predicate::compare(CompOp::Ne, state),
        Mark::Less => predicate::compare(CompOp::Lt, state),
        Mark::Greater => predicate::compare(CompOp::Gt, state),
        Mark::AtMost => predicate::compare(CompOp::Le, state),
        Mark::AtLeast => predicate::compare(CompOp::Ge, state),
        Mark::IsNull => predicate::test_for_null(state),
        Mark::Between => predicate::place_between(state),
        Mark::List => {
            predicate::begin_list(alloc, state);
            Ok(())
        }
        Mark::Element => predicate::put_element(state),
        Mark::Among => predicate::seek(alloc, state),
        Mark::Like => predicate::match_pattern(state),
        Mark::Meets => predicate::meet(state),
        _ => act_on_scalars(alloc, text, mark, state),
    }
}

/// What the mark makes of what was read.
pub(crate) fn act(
    alloc: Global,
    text: &[u8],
    mark: Mark,
    state: &mut State,
) -> Result<(), AllocError>
    ensures { OnOk result (state.new ≡ values.does text.now mark state.old) }
{
    match mark {
        Mark::Chain => chain::begin_chain(state),
        Mark::Or => chain::end_or(state),
        Mark::And => chain::end_and(state),
        Mark::Negate => chain::negate(alloc, state),
        Mark::Constant => chain::put_constant(state),
        _ => act_by_test(alloc, text, mark, state),
    }
}
