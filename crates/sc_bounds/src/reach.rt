use sc_geom::GridBox;
use sc_time::Instant;

/// Where an item lies in time and space.
#[derive(Clone, Copy, Debug, PartialEq, Eq)]
pub struct Reach {
    /// The moment at which it starts.
    pub start: Instant,
    /// The moment at which it ends.
    pub end: Instant,
    /// The smallest box round its geometry; none where it has no geometry.
    pub place: Option<GridBox>,
}
