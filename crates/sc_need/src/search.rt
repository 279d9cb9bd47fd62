ghost use Rattle.std.specs.Prelude.{◌≡◌, IfOk, map};
ghost use Rattle.sc_geom.specs.Rectangle.{IsBox};
ghost use Rattle.sc_bounds.specs.Places.{IsPlace};
ghost use Rattle.sc_item.specs.Feature.{IsShaped};
ghost use Rattle.sc_need.specs.Match.{AreBoxes, IsKeptFilter, IsKeptSelect};
ghost use Rattle.sc_need.specs.Need.{all_needs, any_need, need_in, need_of, need_of_filter, need_of_names, need_of_rects, need_of_shape, need_of_time};

use crate::join::{both, either, without_places};
use crate::need::{Limits, Need, free, of_collections, of_places};
use crate::predicate::{among_need, between_need, compare_need, meets_need, of_geometry};
use sc_base::{Seq, Text};
use sc_expr::{Expr, Filter, Select};
use sc_geom::{Geom, GridBox, Rects};
use sc_time::Range;
use std::alloc::{AllocError, Global};

#[cycle(needs)]
fn all_needs(alloc: Global, members: &[Expr]) -> Result<Need, AllocError>
    ensures { IfOk result (λ need. need ≡ all_needs (map need_in members.now)) }
{
    let mut need = free(alloc);
    for member in members {
        need = both(alloc, need, need_in(alloc, member)?)?;
    }
    Ok(need)
}

#[cycle(needs)]
fn any_need(alloc: Global, members: &[Expr]) -> Result<Need, AllocError>
    ensures { IfOk result (λ need. need ≡ any_need (map need_in members.now)) }
{
    let Some((first, rest)) = members.split_first() else {
        return Ok(free(alloc));
    };
    let mut need = without_places(alloc, need_in(alloc, first)?);
    for member in rest {
        need = either(alloc, need, need_in(alloc, member)?)?;
    }
    Ok(need)
}

/// What an expression needs of an item of which it is true.
#[cycle(needs)]
fn need_in(alloc: Global, expr: &Expr) -> Result<Need, AllocError>
    ensures { IfOk result (λ need. need ≡ need_in expr.now) }
{
    match expr {
        Expr::And(members) => all_needs(alloc, members.as_slice()),
        Expr::Or(members) => any_need(alloc, members.as_slice()),
        Expr::Compare(op, left, right) => compare_need(alloc, *op, left, right),
        Expr::Between(scalar, low, high) => Ok(between_need(alloc, scalar, low, high)),
        Expr::Among(scalar, listed) => among_need(alloc, scalar, listed.as_slice()),
        Expr::Meets(left, right) => meets_need(alloc, left, right),
        Expr::Const(_) | Expr::Not(_) | Expr::IsNull(_) | Expr::Like(_, _) => Ok(free(alloc)),
    }
}

fn cloned(alloc: Global, names: &[Text]) -> Result<Seq<Text>, AllocError>
    ensures { IfOk result (λ copy. copy ≡ names.now) }
{
    let mut copy = Seq::new(alloc);
    for name in names {
        copy.push(name.try_clone(alloc)?)?;
    }
    Ok(copy)
}

fn need_of_names(alloc: Global, names: &Option<Seq<Text>>) -> Result<Need, AllocError>
    ensures { IfOk result (λ need. need ≡ need_of_names names.now) }
{
    match names {
        None => Ok(free(alloc)),
        Some(names) => Ok(of_collections(alloc, cloned(alloc, names.as_slice())?)),
    }
}

fn need_of_time(alloc: Global, range: Option<Range>) -> Need
    ensures { result ≡ need_of_time range }
{
    match range {
        None => free(alloc),
        Some(range) => Need {
            collections: None,
            starts: Limits {
                low: None,
                high: range.to(),
            },
            ends: Limits {
                low: range.from(),
                high: None,
            },
            places: Seq::new(alloc),
        },
    }
}

/// Every box keeps its condition, which is known from its sides.
fn know_box(extent: &GridBox)
    ensures { IsBox extent.now }
{
    let _west = extent.west();
}

fn know_place(place: &Option<GridBox>)
    ensures { IsPlace place.now }
{
    match place {
        None => {}
        Some(extent) => know_box(extent),
    }
}

/// What boxes need, and that boxes that are there keep their conditions.
fn need_of_rects(alloc: Global, rects: &Option<Rects>) -> Result<Need, AllocError>
    ensures need { IfOk result (λ need. need ≡ need_of_rects rects.now) }
    ensures kept { AreBoxes rects.now }
{
    match rects {
        None => Ok(free(alloc)),
        Some(rects) => {
            know_box(&rects.first);
            know_place(&rects.second);
            of_places(alloc, rects.first, rects.second)
        }
    }
}

/// What a shape needs, and that a shape that is there is a geometry.
fn need_of_shape(alloc: Global, shape: &Option<Geom>) -> Result<Need, AllocError>
    ensures need { IfOk result (λ need. need ≡ need_of_shape shape.now) }
    ensures kept { IsShaped shape.now }
{
    match shape {
        None => Ok(free(alloc)),
        Some(geometry) => {
            // Every geometry keeps its condition, which is known from its lists.
            let _points = geometry.points();
            of_geometry(alloc, geometry)
        }
    }
}

/// What a filter needs, and that a filter that is there keeps its conditions.
fn need_of_filter(alloc: Global, filter: &Option<Filter>) -> Result<Need, AllocError>
    ensures need { IfOk result (λ need. need ≡ need_of_filter filter.now) }
    ensures kept { IsKeptFilter filter.now }
{
    match filter {
        None => Ok(free(alloc)),
        Some(filter) => need_in(alloc, filter.expr()),
    }
}

/// What a search needs of an item that it selects: what each of its parts needs, of a filter too.
#[tactic(auto, unfolding(crate::specs::Need::need_of))]
pub fn need_of(alloc: Global, select: &Select) -> Result<Need, AllocError>
    ensures need { IfOk result (λ need. need ≡ need_of select.now) }
    ensures kept { IsKeptSelect select.now }
{
    let rects = need_of_rects(alloc, &select.rects);
    let shape = need_of_shape(alloc, &select.shape);
    let filter = need_of_filter(alloc, &select.filter);
    let need = need_of_names(alloc, &select.collections)?;
    let need = both(alloc, need, need_of_time(alloc, select.time))?;
    let need = both(alloc, need, rects?)?;
    let need = both(alloc, need, shape?)?;
    both(alloc, need, filter?)
}
