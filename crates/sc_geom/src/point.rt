/// A position on the grid: `x` steps of 10^-7 degree east of the meridian of Greenwich, `y` steps north of the equator.
#[derive(Clone, Copy, Debug, PartialEq, Eq, PartialOrd, Ord)]
pub struct Pt {
    pub x: i64,
    pub y: i64,
}
