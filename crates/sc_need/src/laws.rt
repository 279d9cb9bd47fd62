//! What follows from the definitions alone. Each function has an empty body: its clause is the law.
ghost use Rattle.std.specs.Prelude.{◌≡◌, true};
ghost use Rattle.sc_cut.specs.declared.name.PartName.{PartName as Name};
ghost use Rattle.sc_bounds.specs.Extent.{AreBounds, Extent};
ghost use Rattle.sc_bounds.specs.Sets.{Covers, IsWithin};
ghost use Rattle.sc_item.specs.Feature.{Feature, IsKept};
ghost use Rattle.sc_expr.specs.declared.select.Select.{Select};
ghost use Rattle.sc_eval.specs.Selection.{is_selected};
ghost use Rattle.sc_need.specs.declared.need.Need.{Need as NeedRecord};
ghost use Rattle.sc_need.specs.Need.{need_of};
ghost use Rattle.sc_need.specs.Match.{IsKeptSelect, Satisfies, may_match};

/// Each item that a search selects has what the search needs, whatever its filter says.
pub fn selected_items_satisfy()
    ensures { (select : Select) (item : Feature) → IsKeptSelect select → IsKept item → is_selected select item ≡ true → Satisfies (need_of select) item }
{}

/// A part may match whose bounds cover an item of its collection that has what a need says.
pub fn parts_with_satisfying_items_may_match()
    ensures { (need : NeedRecord) (item : Feature) (bounds : Extent) (name : Name) → Satisfies need item → IsKept item →
        item.collection ≡ name.collection → Covers bounds (record { start = item.start; end = item.end; place = item.place }) → may_match need bounds name ≡ true }
{}

/// A part may match whose bounds cover an item of its collection that a search selects, whatever the search's filter says.
pub fn parts_with_selected_items_may_match()
    ensures { (select : Select) (item : Feature) (bounds : Extent) (name : Name) → IsKeptSelect select → IsKept item → is_selected select item ≡ true →
        item.collection ≡ name.collection → Covers bounds (record { start = item.start; end = item.end; place = item.place }) → may_match (need_of select) bounds name ≡ true }
{}

/// Bounds that lie within others let no part match that the others don't.
pub fn narrower_bounds_match_less()
    ensures { (need : NeedRecord) (a b : Extent) (name : Name) → AreBounds a → IsWithin a b → may_match need a name ≡ true → may_match need b name ≡ true }
{}
