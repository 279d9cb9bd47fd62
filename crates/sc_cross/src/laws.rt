//! What follows from the definitions alone. Each function has an empty body: its clause is the law.
ghost use Rattle.std.specs.Prelude.{◌≡◌, true, Any};
ghost use Rattle.sc_geom.specs.declared.point.Pt.{Pt as PtRecord};
ghost use Rattle.sc_geom.specs.Rectangle.{Rectangle, Holds, IsSmallest, AreOverlapping};
ghost use Rattle.sc_geom.specs.Shapes.{Shapes, positions_of};
ghost use Rattle.sc_geom.specs.Geometry.{IsGeometry};
ghost use Rattle.sc_cross.specs.Area.{IsInside};
ghost use Rattle.sc_cross.specs.Meets.{Meets};
ghost use Rattle.sc_cross.specs.Meeting.{do_meet};

/// The test of a meeting tells just that.
pub fn meeting_is_tested()
    ensures { (a b : Shapes PtRecord) → (do_meet a b ≡ true → Meets a b) × (Meets a b → do_meet a b ≡ true) }
{}

/// Meeting is symmetric.
pub fn meeting_is_symmetric()
    ensures { (a b : Shapes PtRecord) → Meets a b → Meets b a }
{}

/// Every geometry meets itself.
pub fn geometries_meet_themselves()
    ensures { (g : Shapes PtRecord) → IsGeometry g → Meets g g }
{}

/// Geometries whose smallest boxes are apart don't meet.
pub fn boxes_of_meeting_geometries_overlap()
    ensures { (a b : Shapes PtRecord) (r s : Rectangle) → IsGeometry a → IsGeometry b →
        IsSmallest r (positions_of a) → IsSmallest s (positions_of b) → Meets a b → AreOverlapping r s }
{}

/// What lies in an area of a geometry lies in the geometry's smallest box.
pub fn areas_lie_in_boxes()
    ensures { (g : Shapes PtRecord) (r : Rectangle) (p : PtRecord) → IsGeometry g → IsSmallest r (positions_of g) →
        Any (IsInside p) g.areas → Holds r p }
{}
