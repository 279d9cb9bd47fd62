//! Whether positions of one geometry lie in areas of another.
ghost use Rattle.std.specs.Prelude.{◌≡◌, ◌↔◌, IsTrue, All, Any};
ghost use Rattle.sc_geom.specs.Point.{IsInWorld};
ghost use Rattle.sc_geom.specs.Rectangle.{Holds};
ghost use Rattle.sc_geom.specs.Shapes.{positions_of};
ghost use Rattle.sc_cross.specs.Area.{IsInside};
ghost use Rattle.sc_cross.specs.Meets.{SomePair};
ghost use Rattle.sc_cross.specs.Parts.{IsRingIn};

use crate::area::is_inside;
use sc_base::Seq;
use sc_geom::{Geom, GridBox, Pt};

/// Whether the position lies in one of the areas.
fn is_in_one_of(at: Pt, areas: &[Seq<Seq<Pt>>]) -> bool
    requires at { IsInWorld at }
    requires areas { All (All (All IsInWorld)) areas.now }
    ensures { IsTrue result ↔ Any (IsInside at) areas.now }
{
    areas.iter().any(|rings| is_inside(at, rings.as_slice()))
}

/// Whether the position lies in one of the areas, whose positions the box has.
fn enters_one_of(at: Pt, areas: &[Seq<Seq<Pt>>], extent: &GridBox) -> bool
    requires at { IsInWorld at }
    requires areas { All (All (IsRingIn extent.now)) areas.now }
    ensures { IsTrue result ↔ Any (IsInside at) areas.now }
{
    extent.holds(at) && is_in_one_of(at, areas)
}

/// Whether one of the positions lies in one of the areas.
pub fn path_enters(path: &[Pt], areas: &[Seq<Seq<Pt>>], extent: &GridBox) -> bool
    requires path { All IsInWorld path.now }
    requires areas { All (All (IsRingIn extent.now)) areas.now }
    ensures { IsTrue result ↔ SomePair IsInside path.now areas.now }
{
    path.iter().any(|at| enters_one_of(*at, areas, extent))
}

/// Whether a position of one of the paths lies in one of the areas.
fn paths_enter(paths: &[Seq<Pt>], areas: &[Seq<Seq<Pt>>], extent: &GridBox) -> bool
    requires paths { All (All IsInWorld) paths.now }
    requires areas { All (All (IsRingIn extent.now)) areas.now }
    ensures { IsTrue result ↔ Any (λ path. SomePair IsInside path areas.now) paths.now }
{
    paths
        .iter()
        .any(|path| path_enters(path.as_slice(), areas, extent))
}

/// Whether a position of the first areas' rings lies in one of the second.
fn rings_enter(rings: &[Seq<Seq<Pt>>], areas: &[Seq<Seq<Pt>>], extent: &GridBox) -> bool
    requires rings { All (All (All IsInWorld)) rings.now }
    requires areas { All (All (IsRingIn extent.now)) areas.now }
    ensures { IsTrue result ↔ Any (λ paths. Any (λ path. SomePair IsInside path areas.now) paths) rings.now }
{
    rings
        .iter()
        .any(|paths| paths_enter(paths.as_slice(), areas, extent))
}

/// Whether a position of the first geometry lies in an area of the second, whose positions the box has.
pub fn enters(a: &Geom, b: &Geom, extent: &GridBox) -> bool
    requires { All (Holds extent.now) (positions_of b.now) }
    ensures { IsTrue result ↔ SomePair IsInside (positions_of a.now) b.now.areas }
{
    let others = b.areas();
    if path_enters(a.points(), others, extent) {
        return true;
    }
    if paths_enter(a.lines(), others, extent) {
        return true;
    }
    rings_enter(a.areas(), others, extent)
}
