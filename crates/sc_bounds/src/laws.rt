//! What follows from the definitions alone. Each function has an empty body: its clause is the law.
ghost use Rattle.std.specs.Prelude.{◌≡◌, ◌↔◌, List, All};
ghost use Rattle.sc_bounds.specs.declared.reach.Reach.{Reach as ReachRecord};
ghost use Rattle.sc_bounds.specs.Extent.{Extent, AreBounds};
ghost use Rattle.sc_bounds.specs.Sets.{Covers, IsWithin, IsHull, IsJoin, IsMeet, IsWidened, IsReach, hull, join_of, meet_of, only};

/// Bounds lie within one another in an order, and wider bounds cover more.
pub fn within_is_an_order()
    ensures itself { (a : Extent) → IsWithin a a }
    ensures chain { (a b d : Extent) → IsWithin a b → IsWithin b d → IsWithin a d }
    ensures equal { (a b : Extent) → AreBounds a → AreBounds b → IsWithin a b → IsWithin b a → a ≡ b }
    ensures covers { (a b : Extent) (reach : ReachRecord) → IsWithin a b → Covers a reach → Covers b reach }
{}

/// The join is the least of the bounds that hold both.
pub fn join_is_least()
    ensures join { (a b : Extent) → AreBounds a → AreBounds b → IsJoin (join_of a b) a b }
    ensures bounds { (a b : Extent) → AreBounds a → AreBounds b → AreBounds (join_of a b) }
    ensures covers_left { (join a b : Extent) (reach : ReachRecord) → IsJoin join a b → Covers a reach → Covers join reach }
    ensures covers_right { (join a b : Extent) (reach : ReachRecord) → IsJoin join a b → Covers b reach → Covers join reach }
{}

/// The meet is the greatest of the bounds that lie within both.
pub fn meet_is_greatest()
    ensures meet { (a b : Extent) → IsMeet (meet_of a b) a b }
    ensures bounds { (a b : Extent) → AreBounds a → AreBounds b → AreBounds (meet_of a b) }
    ensures left { (meet a b : Extent) → IsMeet meet a b → IsWithin meet a }
    ensures right { (meet a b : Extent) → IsMeet meet a b → IsWithin meet b }
    ensures greatest { (meet a b other : Extent) → IsMeet meet a b → IsWithin other a → IsWithin other b → IsWithin other meet }
    ensures covers { (meet a b : Extent) (reach : ReachRecord) → IsMeet meet a b → Covers meet reach ↔ (Covers a reach × Covers b reach) }
{}

/// The bounds of one reach, and the hull of reaches.
pub fn hull_is_least()
    ensures only { (reach : ReachRecord) → IsReach reach → AreBounds (only reach) }
    ensures widened { (b : Extent) (reach : ReachRecord) → AreBounds b → IsReach reach → IsWidened (join_of b (only reach)) b reach }
    ensures hull { (reaches : List ReachRecord) → All IsReach reaches → IsHull (hull reaches) reaches }
    ensures bounds { (reaches : List ReachRecord) → All IsReach reaches → AreBounds (hull reaches) }
{}
