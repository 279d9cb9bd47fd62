use sc_bounds::Bounds;

/// A load that put items into a part.
#[derive(Clone, Copy, Debug, PartialEq, Eq)]
pub struct Addition {
    /// The load's revision.
    pub revision: u64,
    /// The hull of the items that it put there.
    pub hull: Bounds,
}
