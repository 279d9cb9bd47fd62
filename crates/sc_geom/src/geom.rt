use crate::point::Pt;
use sc_base::Seq;
use std::marker::Model;

/// A geometry on the grid, in steps of 10^-7 degree, with every kind of RFC 7946 §3.1 flattened into points, lines and
/// areas. Contracts see it as the record of its three lists.
///
/// It has at least one position. `x` is from -3,600,000,000 to 3,600,000,000 and `y` from -900,000,000 to 900,000,000.
/// A line has at least 2 positions, an area at least one ring, and a ring at least 4 positions, of which the last
/// equals the first. A hole is a further ring of its area.
#[derive(Debug, Drop)]
pub struct Geom {
    points: Seq<Pt>,
    lines: Seq<Seq<Pt>>,
    areas: Seq<Seq<Seq<Pt>>>,
}

impl Model for Geom {
    ghost use Rattle.sc_geom.specs.declared.point.Pt.{Pt};
    ghost use Rattle.sc_geom.specs.Shapes.{Shapes};
    ghost use Rattle.sc_geom.specs.Geometry.{IsGeometry};

    ghost Value = { Shapes Pt };

    ghost view = { λ g. record { points = g.points; lines = g.lines; areas = g.areas } };

    ghost invariant = { λ g. IsGeometry (record { points = g.points; lines = g.lines; areas = g.areas }) };
}

impl Geom {
    ghost use Rattle.std.specs.Prelude.{◌≡◌};
    ghost use Rattle.sc_geom.specs.Geometry.{IsGeometry};

    /// The geometry of lists that keep the condition.
    pub(crate) fn of(points: Seq<Pt>, lines: Seq<Seq<Pt>>, areas: Seq<Seq<Seq<Pt>>>) -> Geom
        requires { IsGeometry (record { points = points; lines = lines; areas = areas }) }
        ensures { result ≡ record { points = points; lines = lines; areas = areas } }
    {
        Geom {
            points,
            lines,
            areas,
        }
    }

    /// The points, and that every geometry keeps its condition.
    pub fn points(&self) -> &[Pt]
        ensures points { result.now ≡ self.now.points }
        ensures kept { IsGeometry self.now }
    {
        self.points.as_slice()
    }

    /// The lines, each as its positions in order.
    pub fn lines(&self) -> &[Seq<Pt>]
        ensures lines { result.now ≡ self.now.lines }
        ensures kept { IsGeometry self.now }
    {
        self.lines.as_slice()
    }

    /// The areas, each as its rings, each ring as its positions in order.
    pub fn areas(&self) -> &[Seq<Seq<Pt>>]
        ensures areas { result.now ≡ self.now.areas }
        ensures kept { IsGeometry self.now }
    {
        self.areas.as_slice()
    }
}
