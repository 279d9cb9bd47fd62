ghost use Rattle.std.specs.Prelude.{◌≡◌, ◌↔◌, IsTrue};
ghost use Rattle.sc_bounds.specs.Extent.{AreBounds, empty};
ghost use Rattle.sc_bounds.specs.Sets.{Covers, IsJoin, IsMeet, IsWidened, join_of, meet_of, only};

use crate::moments::{has_moment, join_moments, meet_moments};
use crate::places::{is_place_within, join_places, meet_places};
use crate::reach::Reach;
use sc_geom::GridBox;
use sc_time::Instant;
use std::marker::Model;

/// Bounds on where items lie in time and space: the moments at which they may start, those at which they may end,
/// and the points at which they may lie. Each of the three sets is none, or all from its first moment to its last, or
/// all in its box. Contracts see the three as an `Extent`.
#[derive(Clone, Copy, Debug, PartialEq, Eq)]
pub struct Bounds {
    starts: Option<(Instant, Instant)>,
    ends: Option<(Instant, Instant)>,
    place: Option<GridBox>,
}

impl Model for Bounds {
    ghost use Rattle.sc_bounds.specs.Extent.{Extent, AreBounds};

    ghost Value = { Extent };

    ghost view = { λ b. record { starts = b.starts; ends = b.ends; place = b.place } };

    ghost invariant = { λ b. AreBounds (record { starts = b.starts; ends = b.ends; place = b.place }) };

    ghost inverse = { λ e. record { starts = e.starts; ends = e.ends; place = e.place } };
}

impl Bounds {
    /// The bounds of no items.
    pub fn empty() -> Bounds
        ensures { result ≡ empty }
    {
        Bounds {
            starts: None,
            ends: None,
            place: None,
        }
    }

    /// The first and the last moment at which an item may start, or none; the first isn't later than the last.
    pub fn starts(&self) -> Option<(Instant, Instant)>
        ensures value { result ≡ self.now.starts }
        ensures kept { AreBounds self.now }
    {
        self.starts
    }

    /// The first and the last moment at which an item may end, or none; the first isn't later than the last.
    pub fn ends(&self) -> Option<(Instant, Instant)>
        ensures value { result ≡ self.now.ends }
        ensures kept { AreBounds self.now }
    {
        self.ends
    }

    /// The box in which an item's box may lie; none where no item may have one.
    pub fn place(&self) -> Option<GridBox>
        ensures value { result ≡ self.now.place }
        ensures kept { AreBounds self.now }
    {
        self.place
    }
}

/// Whether bounds cover a reach: its start is one of their starts, its end one of their ends and its box, where it has
/// one, lies within their place.
pub fn covers(bounds: &Bounds, reach: &Reach) -> bool
    ensures { IsTrue result ↔ Covers bounds.now reach.now }
{
    has_moment(bounds.starts, reach.start)
        && has_moment(bounds.ends, reach.end)
        && is_place_within(&reach.place, &bounds.place)
}

/// The smallest bounds that hold these and cover a reach too. Takes no memory.
pub fn widen(bounds: &Bounds, reach: &Reach) -> Bounds
    ensures widened { IsWidened result bounds.now reach.now }
    ensures value { result ≡ join_of bounds.now (only reach.now) }
{
    Bounds {
        starts: join_moments(bounds.starts, Some((reach.start, reach.start))),
        ends: join_moments(bounds.ends, Some((reach.end, reach.end))),
        place: join_places(&bounds.place, &reach.place),
    }
}

/// The smallest bounds that hold both. Takes no memory.
pub fn join(a: &Bounds, b: &Bounds) -> Bounds
    ensures join { IsJoin result a.now b.now }
    ensures value { result ≡ join_of a.now b.now }
{
    Bounds {
        starts: join_moments(a.starts, b.starts),
        ends: join_moments(a.ends, b.ends),
        place: join_places(&a.place, &b.place),
    }
}

/// The starts, ends and points that both have; where they have none in common, that set is empty. Takes no memory.
pub fn meet(a: &Bounds, b: &Bounds) -> Bounds
    ensures meet { IsMeet result a.now b.now }
    ensures value { result ≡ meet_of a.now b.now }
{
    Bounds {
        starts: meet_moments(a.starts, b.starts),
        ends: meet_moments(a.ends, b.ends),
        place: meet_places(&a.place, &b.place),
    }
}
