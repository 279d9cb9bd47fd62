ghost use Rattle.std.specs.Prelude.{◌≡◌};
ghost use Rattle.sc_bounds.specs.Sets.{IsHull, hull};

use crate::bounds::{Bounds, widen};
use crate::reach::Reach;

/// The smallest bounds that cover all reaches; those of no reach are empty. Takes no memory.
pub fn hull_of(reaches: &[Reach]) -> Bounds
    ensures hull { IsHull result reaches.now }
    ensures value { result ≡ hull reaches.now }
{
    let mut bounds = Bounds::empty();
    for reach in reaches {
        bounds = widen(&bounds, reach);
    }
    bounds
}
