ghost use Rattle.std.specs.Prelude.{◌*◌, ◌≤◌};

/// How the last append ended.
#[derive(Clone, Copy, Debug, PartialEq, Eq)]
pub enum LastAppend {
    /// It was answered with `Ok`, or there was none.
    Stored,
    /// It failed before its gate was written: the gate stands closed on the disk.
    GateClosed,
    /// It failed later: its record stands whole behind the gate, which may be open or closed.
    GateWritten,
}

/// A file of records on a disk, to which more are appended. The place is that of the gate behind its records, and the count
/// is the number of its records.
#[derive(Drop)]
pub struct Journal<D> {
    pub(crate) disk: D,
    pub(crate) place: u64,
    pub(crate) count: u64,
    pub(crate) last: LastAppend,
    ghost few: { 9 * count ≤ place },
}
