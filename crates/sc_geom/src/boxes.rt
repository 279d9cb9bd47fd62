ghost use Rattle.std.specs.Prelude.{◌≡◌, ◌↔◌, ◌≤ℤ◌, IsTrue};
ghost use Rattle.sc_geom.specs.Rectangle.{IsBox, Holds, AreOverlapping, overlap};
ghost use Rattle.sc_geom.specs.Rects.{ring_of};

use crate::point::Pt;
use std::marker::Model;

/// A box between two meridians and two parallels, in steps of 10^-7 degree.
///
/// West is not greater than east, nor south than north; west and east are from -3,600,000,000 to 3,600,000,000,
/// south and north from -900,000,000 to 900,000,000. Contracts see it as a `Rectangle`.
#[derive(Clone, Copy, Debug, PartialEq, Eq)]
pub struct GridBox {
    west: i64,
    south: i64,
    east: i64,
    north: i64,
}

impl Model for GridBox {
    ghost use Rattle.sc_geom.specs.Rectangle.{Rectangle, IsBox};

    ghost Value = { Rectangle };

    ghost view = { λ b. record { west = b.west; south = b.south; east = b.east; north = b.north } };

    ghost invariant = { λ b. IsBox (record { west = b.west; south = b.south; east = b.east; north = b.north }) };

    ghost inverse = { λ r. record { west = r.west; south = r.south; east = r.east; north = r.north } };
}

impl GridBox {
    /// The box of four sides, which are in order and in range.
    pub fn new(west: i64, south: i64, east: i64, north: i64) -> GridBox
        requires { IsBox (record { west = west; south = south; east = east; north = north }) }
        ensures { result ≡ record { west = west; south = south; east = east; north = north } }
    {
        GridBox {
            west,
            south,
            east,
            north,
        }
    }

    /// The western side, and that every box keeps its condition.
    pub fn west(&self) -> i64
        ensures west { result ≡ self.now.west }
        ensures kept { IsBox self.now }
    {
        self.west
    }

    /// The southern side.
    pub fn south(&self) -> i64
        ensures south { result ≡ self.now.south }
        ensures kept { IsBox self.now }
    {
        self.south
    }

    /// The eastern side.
    pub fn east(&self) -> i64
        ensures east { result ≡ self.now.east }
        ensures kept { IsBox self.now }
    {
        self.east
    }

    /// The northern side.
    pub fn north(&self) -> i64
        ensures north { result ≡ self.now.north }
        ensures kept { IsBox self.now }
    {
        self.north
    }

    /// Whether the box has the position, on its sides too.
    pub fn holds(&self, at: Pt) -> bool
        ensures { IsTrue result ↔ Holds self.now at }
    {
        have_common(self.west(), self.east(), at.x, at.x)
            && have_common(self.south(), self.north(), at.y, at.y)
    }

    /// Whether the boxes have a position in common, on their sides too.
    pub fn overlaps(&self, other: &GridBox) -> bool
        ensures fact { IsTrue result ↔ AreOverlapping self.now other.now }
        ensures test { result ≡ overlap self.now other.now }
    {
        have_common(self.west(), self.east(), other.west(), other.east())
            && have_common(self.south(), self.north(), other.south(), other.north())
    }

    /// The ring round the box, from west-south over east-south, east-north and west-north back to west-south.
    pub fn ring(&self) -> [Pt; 5]
        ensures ring { result ≡ ring_of self.now }
        ensures kept { IsBox self.now }
    {
        [
            Pt {
                x: self.west,
                y: self.south,
            },
            Pt {
                x: self.east,
                y: self.south,
            },
            Pt {
                x: self.east,
                y: self.north,
            },
            Pt {
                x: self.west,
                y: self.north,
            },
            Pt {
                x: self.west,
                y: self.south,
            },
        ]
    }
}

/// Whether two ranges have a number in common.
fn have_common(low: i64, high: i64, other_low: i64, other_high: i64) -> bool
    ensures { IsTrue result ↔ ((low ≤ℤ other_high) × (other_low ≤ℤ high)) }
{
    low <= other_high && other_low <= high
}
