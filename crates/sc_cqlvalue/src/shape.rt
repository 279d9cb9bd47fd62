ghost use Rattle.std.specs.Prelude.{◌≡◌, OnOk, IfOk};
ghost use Rattle.sc_cqlvalue.specs.Values as values;

use crate::bbox::rects_of;
use crate::literal::{bytes_of, dec_of, name_of};
use crate::put::{note, put_shape, stand_in};
use crate::state::{Bbox, State};
use sc_base::Seq;
use sc_decimal::Dec;
use sc_expr::{Geom, Shape};
use sc_geom::geom_of_rects;
use sc_grammar::Token;
use std::alloc::{AllocError, Global};

pub(crate) fn named_shape_of(
    alloc: Global,
    text: &[u8],
    token: Token,
) -> Result<Option<Shape>, AllocError>
    ensures { IfOk result (λ shape. shape ≡ values.named_shape_of text.now token) }
{
    let name = name_of(alloc, token.class, bytes_of(text, token))?;
    Ok(name.map(|name| Shape::Prop(name)))
}

pub(crate) fn begin_box(alloc: Global, state: &mut State)
    ensures { state.new ≡ values.box_begun state.old }
{
    state.bbox = Bbox {
        place: state.token.from,
        sides: Seq::new(alloc),
        has_wide: false,
    };
}

pub(crate) fn put_side(side: Option<Dec>, state: &mut State) -> Result<(), AllocError>
    ensures { OnOk result (state.new ≡ values.with_side side state.old) }
{
    match side {
        Some(side) => state.bbox.sides.push(side),
        None => {
            note(state.token.from, state);
            state.bbox.has_wide = true;
            Ok(())
        }
    }
}

/// The geometry of a box by its sides.
fn box_shape_of(alloc: Global, sides: &[Dec]) -> Result<Option<Shape>, AllocError>
    ensures { IfOk result (λ shape. shape ≡ values.box_shape_of sides.now) }
{
    match rects_of(sides) {
        None => Ok(None),
        Some(rects) => Ok(Some(Shape::Geom(geom_of_rects(alloc, &rects)?))),
    }
}

pub(crate) fn put_box(alloc: Global, state: &mut State) -> Result<(), AllocError>
    ensures { OnOk result (state.new ≡ values.with_box state.old) }
{
    if state.bbox.has_wide {
        return state.shapes.push(stand_in(alloc)?);
    }
    let shape = box_shape_of(alloc, state.bbox.sides.as_slice())?;
    put_shape(alloc, state.bbox.place, shape, state)
}

pub(crate) fn put_geometry(
    alloc: Global,
    drawn: Result<Geom, usize>,
    state: &mut State,
) -> Result<(), AllocError>
    ensures { OnOk result (state.new ≡ values.with_geometry drawn state.old) }
{
    match drawn {
        Ok(geometry) => state.shapes.push(Shape::Geom(geometry)),
        Err(place) => put_shape(alloc, place, None, state),
    }
}
