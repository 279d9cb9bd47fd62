ghost use Rattle.std.specs.Prelude.{◌≡◌, IfSome, ℤ, ◌≤ℤ◌};
ghost use Rattle.sc_geom.specs.Point.{IsInWorld, IsLongitude, IsLatitude};
ghost use Rattle.sc_geom.specs.Place.{step_between, longitude_of, latitude_of, place_of};

use crate::point::Pt;
use sc_decimal::Dec;

const MOST_X: i64 = 3_600_000_000;

const MOST_Y: i64 = 900_000_000;

#[tactic(auto, unfolding(crate::specs::Place::step_between))]
fn step_between(low: i64, high: i64, number: &Dec) -> Option<i64>
    ensures step { result ≡ step_between low high number.now }
    ensures range { IfSome result (λ step. (low ≤ℤ step) × (step ≤ℤ high)) }
{
    let step = number.to_grid()?;
    if low <= step && step <= high {
        Some(step)
    } else {
        None
    }
}

/// A longitude on the grid, from -360 to 360 degrees; `None` where it is out of that range.
pub fn longitude(number: &Dec) -> Option<i64>
    ensures step { result ≡ longitude_of number.now }
    ensures range { IfSome result IsLongitude }
{
    step_between(-MOST_X, MOST_X, number)
}

/// A latitude on the grid, from -90 to 90 degrees; `None` where it is out of that range.
pub fn latitude(number: &Dec) -> Option<i64>
    ensures step { result ≡ latitude_of number.now }
    ensures range { IfSome result IsLatitude }
{
    step_between(-MOST_Y, MOST_Y, number)
}

/// The position on the grid; `None` where one of its coordinates is out of range.
#[tactic(auto, unfolding(crate::specs::Place::place_of))]
pub(crate) fn place_of(x: &Dec, y: &Dec) -> Option<Pt>
    ensures place { result ≡ place_of x.now y.now }
    ensures in_world { IfSome result IsInWorld }
{
    let x = longitude(x)?;
    let y = latitude(y)?;
    Some(Pt { x, y })
}
