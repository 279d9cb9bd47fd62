//! What single predicates of a filter need.
ghost use Rattle.std.specs.Prelude.{◌≡◌, [], ◌∷◌, IfOk, None, option_map};
ghost use Rattle.sc_expr.specs.declared.scalar.Shape.TheVariants as shapes;
ghost use Rattle.sc_need.specs.Need.{against, among_need, between_need, compare_need, free, is_collection, is_equal, is_time, limits_by, meets_need, moment_of, names_need, of_collections, of_geometry, of_starts, or_else, range_need, text_of, texts_of, turned};

use crate::need::{Limits, Need, free, no_limits, of_collections, of_places, of_starts};
use sc_base::{Seq, Text};
use sc_eval::instant_of;
use sc_expr::{CompOp, Scalar, Shape};
use sc_geom::{Geom, box_of};
use sc_sort::{Queryable, named};
use sc_time::Instant;
use std::alloc::{AllocError, Global};

/// The instant that a literal is, if it is one.
#[tactic(auto, unfolding(crate::specs::Need::moment_of))]
fn moment_of(scalar: &Scalar) -> Option<Instant>
    ensures { result ≡ moment_of scalar.now }
{
    match scalar {
        Scalar::Text(text) => instant_of(text),
        Scalar::Moment(at) => Some(*at),
        _ => None,
    }
}

/// The text that a literal is, if it is one.
#[tactic(auto, unfolding(crate::specs::Need::text_of))]
fn text_of(scalar: &Scalar) -> Option<&Text>
    ensures { option_map (λ text. text.now) result ≡ text_of scalar.now }
{
    match scalar {
        Scalar::Text(text) => Some(text),
        _ => None,
    }
}

/// Whether the scalar is the item's time.
#[tactic(auto, unfolding(crate::specs::Need::is_time))]
fn is_time(scalar: &Scalar) -> bool
    ensures { result ≡ is_time scalar.now }
{
    match scalar {
        Scalar::Prop(name) => matches!(named(name.as_str()), Queryable::Time),
        _ => false,
    }
}

/// Whether the scalar is the item's collection.
#[tactic(auto, unfolding(crate::specs::Need::is_collection))]
fn is_collection(scalar: &Scalar) -> bool
    ensures { result ≡ is_collection scalar.now }
{
    match scalar {
        Scalar::Prop(name) => matches!(named(name.as_str()), Queryable::Collection),
        _ => false,
    }
}

/// The limits of what stands left of a moment.
fn limits_by(op: CompOp, at: Instant) -> Limits
    ensures { result ≡ limits_by op at }
{
    match op {
        CompOp::Eq => Limits {
            low: Some(at),
            high: Some(at),
        },
        CompOp::Ne => no_limits(),
        CompOp::Lt | CompOp::Le => Limits {
            low: None,
            high: Some(at),
        },
        CompOp::Gt | CompOp::Ge => Limits {
            low: Some(at),
            high: None,
        },
    }
}

/// The same comparison with its sides exchanged.
fn turned(op: CompOp) -> CompOp
    ensures { result ≡ turned op }
{
    match op {
        CompOp::Eq => CompOp::Eq,
        CompOp::Ne => CompOp::Ne,
        CompOp::Lt => CompOp::Gt,
        CompOp::Gt => CompOp::Lt,
        CompOp::Le => CompOp::Ge,
        CompOp::Ge => CompOp::Le,
    }
}

fn is_equal(op: CompOp) -> bool
    ensures { result ≡ is_equal op }
{
    match op {
        CompOp::Eq => true,
        _ => false,
    }
}

/// The start lies within the limits by a moment, where there is one.
fn time_need(alloc: Global, op: CompOp, moment: Option<Instant>) -> Option<Need>
    ensures { result ≡ option_map (λ at. of_starts (limits_by op at)) moment }
{
    match moment {
        None => None,
        Some(at) => Some(of_starts(alloc, limits_by(op, at))),
    }
}

/// The collection is the one of a name, where there is one.
fn name_need(alloc: Global, name: Option<&Text>) -> Result<Option<Need>, AllocError>
    ensures { IfOk result (λ need. need ≡ option_map (λ name. of_collections (name ∷ [])) (option_map (λ text. text.now) name.entry)) }
{
    match name {
        None => Ok(None),
        Some(name) => {
            let mut names = Seq::new(alloc);
            names.push(name.try_clone(alloc)?)?;
            Ok(Some(of_collections(alloc, names)))
        }
    }
}

/// The need of the item's time against a moment, or of its collection against a name; none of any other pair.
#[tactic(auto, unfolding(crate::specs::Need::against))]
fn against(
    alloc: Global,
    op: CompOp,
    left: &Scalar,
    right: &Scalar,
) -> Result<Option<Need>, AllocError>
    ensures { IfOk result (λ need. need ≡ against op left.now right.now) }
{
    if is_time(left) {
        return Ok(time_need(alloc, op, moment_of(right)));
    }
    if is_equal(op) && is_collection(left) {
        return name_need(alloc, text_of(right));
    }
    Ok(None)
}

fn or_free(alloc: Global, need: Option<Need>) -> Need
    ensures { result ≡ or_else need None }
{
    match need {
        Some(need) => need,
        None => free(alloc),
    }
}

pub(crate) fn compare_need(
    alloc: Global,
    op: CompOp,
    left: &Scalar,
    right: &Scalar,
) -> Result<Need, AllocError>
    ensures { IfOk result (λ need. need ≡ compare_need op left.now right.now) }
{
    match against(alloc, op, left, right)? {
        Some(need) => Ok(need),
        None => Ok(or_free(alloc, against(alloc, turned(op), right, left)?)),
    }
}

fn range_need(alloc: Global, low: Option<Instant>, high: Option<Instant>) -> Need
    ensures { result ≡ range_need low high }
{
    match (low, high) {
        (Some(low), Some(high)) => of_starts(
            alloc,
            Limits {
                low: Some(low),
                high: Some(high),
            },
        ),
        _ => free(alloc),
    }
}

pub(crate) fn between_need(alloc: Global, scalar: &Scalar, low: &Scalar, high: &Scalar) -> Need
    ensures { result ≡ between_need scalar.now low.now high.now }
{
    if is_time(scalar) {
        range_need(alloc, moment_of(low), moment_of(high))
    } else {
        free(alloc)
    }
}

/// The texts that all of these are, or none where one isn't a text.
#[tactic(auto, using(crate::proofs::Texts::one_more, crate::proofs::Texts::no_more))]
fn texts_of(alloc: Global, scalars: &[Scalar]) -> Result<Option<Seq<Text>>, AllocError>
    ensures { IfOk result (λ texts. texts ≡ texts_of scalars.now) }
{
    let mut texts = Seq::new(alloc);
    for scalar in scalars {
        let Some(text) = text_of(scalar) else {
            return Ok(None);
        };
        texts.push(text.try_clone(alloc)?)?;
    }
    Ok(Some(texts))
}

fn names_need(alloc: Global, names: Option<Seq<Text>>) -> Need
    ensures { result ≡ names_need names }
{
    match names {
        None => free(alloc),
        Some(names) => of_collections(alloc, names),
    }
}

pub(crate) fn among_need(
    alloc: Global,
    scalar: &Scalar,
    listed: &[Scalar],
) -> Result<Need, AllocError>
    ensures { IfOk result (λ need. need ≡ among_need scalar.now listed.now) }
{
    if is_collection(scalar) {
        Ok(names_need(alloc, texts_of(alloc, listed)?))
    } else {
        Ok(free(alloc))
    }
}

/// The place touches the smallest box of a geometry.
pub(crate) fn of_geometry(alloc: Global, geometry: &Geom) -> Result<Need, AllocError>
    ensures { IfOk result (λ need. need ≡ of_geometry geometry.now) }
{
    // Every geometry keeps its condition, which is known from its lists.
    let _points = geometry.points();
    of_places(alloc, box_of(geometry), None)
}

/// The place touches the box of a geometry that the property of a name meets; only `geometry` has a place.
fn property_meets(alloc: Global, name: &Text, geometry: &Geom) -> Result<Need, AllocError>
    ensures { IfOk result (λ need. need ≡ meets_need (shapes.Prop name.now) (shapes.Geom geometry.now)) }
{
    match named(name.as_str()) {
        Queryable::Geometry => of_geometry(alloc, geometry),
        _ => Ok(free(alloc)),
    }
}

pub(crate) fn meets_need(alloc: Global, left: &Shape, right: &Shape) -> Result<Need, AllocError>
    ensures { IfOk result (λ need. need ≡ meets_need left.now right.now) }
{
    match (left, right) {
        (Shape::Prop(name), Shape::Geom(geometry)) => property_meets(alloc, name, geometry),
        (Shape::Geom(geometry), Shape::Prop(name)) => property_meets(alloc, name, geometry),
        _ => Ok(free(alloc)),
    }
}
