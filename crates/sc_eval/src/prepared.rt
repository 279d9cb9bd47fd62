ghost use Rattle.std.specs.Prelude.{◌≡◌, Some, IfOk, OnErr, IsTrue};
ghost use Rattle.sc_geom.specs.Rects.{geometry_of};
ghost use Rattle.sc_cross.specs.Meeting.{do_meet};
ghost use Rattle.sc_item.specs.Feature.{IsPlaceOf};
ghost use Rattle.sc_eval.specs.Names.{AreNamesOf};
ghost use Rattle.sc_eval.specs.Selection.{folds_if_there, is_listed, is_selected, meets_geometry, meets_rects, meets_shape};

use crate::names::Names;
use crate::select::{is_during, is_listed, is_true_of};
use sc_base::{Seq, Text};
use sc_cross::meets_within;
use sc_expr::Select;
use sc_geom::{Geom, GridBox, Rects, box_of};
use sc_item::Item;
use std::alloc::{AllocError, Global};
use std::marker::Model;

/// A search that is asked of many items, with what is computed once for all of them: a table of its ids, and the smallest
/// box of its shape. Contracts see it as what the search selects by.
#[derive(Drop)]
pub struct Prepared<'a> {
    select: &'a Select,
    ids: Option<Names<'a>>,
    place: Option<GridBox>,
}

impl<'a> Model for Prepared<'a> {
    ghost use Rattle.sc_expr.specs.declared.select.Select.{Select};
    ghost use Rattle.sc_expr.specs.contracts.select.Select as selects;

    ghost Value = { Select };

    ghost coded = { selects.the_row.coded };

    ghost use Rattle.sc_eval.specs.Prepared.{IsPrepared};

    ghost view = { λ p. p.select.now };

    ghost invariant = { λ p. IsPrepared p.select.now p.ids p.place };
}

/// The table of names, where there is a list.
fn names_of<'a>(
    alloc: Global,
    names: &'a Option<Seq<Text>>,
) -> Result<Option<Names<'a>>, AllocError>
    ensures { IfOk result (λ table. AreNamesOf table names.now) }
{
    match names {
        None => Ok(None),
        Some(names) => Ok(Some(Names::of(alloc, names.as_slice())?)),
    }
}

/// Whether a name is in the table, where there is one.
fn is_named(table: &Option<Names>, name: &Text) -> bool
    ensures { result ≡ is_listed table.now name.now }
{
    match table {
        None => true,
        Some(table) => table.has(name.as_str()),
    }
}

/// The smallest box of a geometry, where there is one.
fn place_of(geometry: &Option<Geom>) -> Option<GridBox>
    ensures { IsPlaceOf geometry.now result }
{
    match geometry {
        None => None,
        Some(geometry) => Some(box_of(geometry)),
    }
}

/// Whether a geometry, whose smallest box is this, meets one of the boxes.
fn meets_boxes(geometry: &Geom, place: Option<GridBox>, rects: &Rects) -> bool
    requires { IsPlaceOf (Some geometry.now) place }
    ensures { result ≡ do_meet geometry.now (geometry_of rects.now) }
{
    match place {
        Some(place) => sc_cross::meets_rects(geometry, &place, rects),
        None => unreachable!(),
    }
}

/// Whether an item meets one of the boxes.
fn lies_in(rects: &Rects, item: &Item) -> bool
    ensures { result ≡ meets_geometry (geometry_of rects.now) item.now.geom }
{
    match item.geom() {
        None => false,
        Some(own) => meets_boxes(own, item.place(), rects),
    }
}

/// Whether an item meets one of the boxes, where there are some.
fn meets_rects(rects: &Option<Rects>, item: &Item) -> bool
    ensures { result ≡ meets_rects rects.now item.now.geom }
{
    match rects {
        None => true,
        Some(rects) => lies_in(rects, item),
    }
}

/// Whether two geometries meet, whose smallest boxes are these.
fn meets_in_places(a: &Geom, of_a: Option<GridBox>, b: &Geom, of_b: Option<GridBox>) -> bool
    requires of_a { IsPlaceOf (Some a.now) of_a }
    requires of_b { IsPlaceOf (Some b.now) of_b }
    ensures { result ≡ do_meet a.now b.now }
{
    match (of_a, of_b) {
        (Some(of_a), Some(of_b)) => meets_within(a, &of_a, b, &of_b),
        _ => unreachable!(),
    }
}

/// Whether an item meets a geometry, whose smallest box is this.
fn meets_geometry(geometry: &Geom, place: Option<GridBox>, item: &Item) -> bool
    requires { IsPlaceOf (Some geometry.now) place }
    ensures { result ≡ meets_geometry geometry.now item.now.geom }
{
    match item.geom() {
        None => false,
        Some(own) => meets_in_places(own, item.place(), geometry, place),
    }
}

/// Whether an item meets a geometry, where there is one.
fn meets_shape(geometry: &Option<Geom>, place: Option<GridBox>, item: &Item) -> bool
    requires { IsPlaceOf geometry.now place }
    ensures { result ≡ meets_shape geometry.now item.now.geom }
{
    match geometry {
        None => true,
        Some(geometry) => meets_geometry(geometry, place, item),
    }
}

impl<'a> Prepared<'a> {
    /// Computes what is computed once for a search. Memory is taken for the table of its ids alone.
    pub fn of(alloc: Global, select: &'a Select) -> Result<Prepared<'a>, AllocError>
        ensures { IfOk result (λ prepared. prepared ≡ select.now) }
    {
        let ids = names_of(alloc, &select.ids)?;
        let place = place_of(&select.shape);
        Ok(Prepared { select, ids, place })
    }

    /// Whether the search selects an item: every part of it that is there holds. An item without geometry meets nothing.
    /// Memory is needed for CASEI alone.
    ///
    /// The collection, the id and the time are looked at first, then the boxes, then the shape and the filter.
    #[tactic(auto, unfolding(crate::specs::Selection::is_selected))]
    pub fn selects(&self, alloc: Global, item: &Item) -> Result<bool, AllocError>
        ensures value { IfOk result (λ selected. selected ≡ is_selected self.now item.now) }
        ensures memory { OnErr result (IsTrue (folds_if_there self.now.filter)) }
    {
        if !is_listed(&self.select.collections, item.collection()) {
            return Ok(false);
        }
        if !is_named(&self.ids, item.id()) {
            return Ok(false);
        }
        if !is_during(self.select.time, item) {
            return Ok(false);
        }
        if !meets_rects(&self.select.rects, item) {
            return Ok(false);
        }
        if !meets_shape(&self.select.shape, self.place, item) {
            return Ok(false);
        }
        is_true_of(alloc, &self.select.filter, item)
    }
}

/// Whether a search selects an item: every part of it that is there holds. An item without geometry meets nothing.
/// A search that is asked of many items is prepared once, by [`Prepared::of`], which says the same of each. Memory is
/// needed for the table of ids and for CASEI.
pub fn selects(alloc: Global, select: &Select, item: &Item) -> Result<bool, AllocError>
    ensures { IfOk result (λ selected. selected ≡ is_selected select.now item.now) }
{
    Prepared::of(alloc, select)?.selects(alloc, item)
}
