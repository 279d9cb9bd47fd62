ghost use Rattle.std.specs.Option.{ForSome};
ghost use Rattle.sc_geom.specs.Point.{IsLongitude};

use sc_decimal::Dec;
use sc_geom::{Area, Draft, Path};

/// What is drawn by the tokens and marks so far.
#[derive(Drop)]
pub struct Drawing {
    pub(crate) number: Option<Dec>,
    pub(crate) longitude: Option<i64>,
    pub(crate) path: Path,
    pub(crate) area: Area,
    pub(crate) rings: usize,
    pub(crate) draft: Draft,
    pub(crate) is_outside: bool,
    pub(crate) is_short: bool,
    ghost in_range: { ForSome longitude IsLongitude },
}
