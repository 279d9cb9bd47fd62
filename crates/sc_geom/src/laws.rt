ghost use Rattle.std.specs.Prelude.{◌≡◌, List, true};
ghost use Rattle.sc_geom.specs.declared.point.Pt.{Pt as PtRecord};
ghost use Rattle.sc_geom.specs.Geometry.{IsGeometry};
ghost use Rattle.sc_geom.specs.Rectangle.{Rectangle, Holds, IsSmallest, AreOverlapping, has_position, overlap, smallest};
ghost use Rattle.sc_geom.specs.Shapes.{Shapes, positions_of};
ghost use Rattle.sc_json.specs.declared.tree.Json.{Json};
ghost use Rattle.sc_geom.specs.Sketch.{Sketch};
ghost use Rattle.sc_geom.specs.Depicts.{Depicts};

/// A tree depicts one sketch at most, so each fault excludes the others and every geometry.
pub fn tree_depicts_one()
    ensures { (tree : Json) (s t : Sketch) → Depicts tree s → Depicts tree t → s ≡ t }
{}

/// Positions have one smallest rectangle at most, and that of a geometry's is `smallest`.
pub fn one_smallest()
    ensures one { (r s : Rectangle) (positions : List PtRecord) → IsSmallest r positions → IsSmallest s positions → r ≡ s }
    ensures smallest { (g : Shapes PtRecord) → IsGeometry g → IsSmallest (smallest g) (positions_of g) }
    ensures only { (g : Shapes PtRecord) (r : Rectangle) → IsGeometry g → IsSmallest r (positions_of g) → r ≡ smallest g }
{}

/// The tests of rectangles agree with the relations.
pub fn rectangle_tests()
    ensures held { (r : Rectangle) (p : PtRecord) → (has_position r p ≡ true → Holds r p) × (Holds r p → has_position r p ≡ true) }
    ensures overlapping { (r s : Rectangle) → (overlap r s ≡ true → AreOverlapping r s) × (AreOverlapping r s → overlap r s ≡ true) }
{}
