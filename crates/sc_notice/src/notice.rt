use sc_cut::PartName;

/// What is told by a queue of notices.
#[derive(Debug, Drop)]
pub enum Notice {
    /// A load changed the part with this name, which is there.
    Part(PartName),
    /// Whoever hears this stops.
    Stop,
}

/// A call of a pass with its answer. No value of it is made: contracts list them.
pub enum Call {
    /// The notice was told.
    Told(Notice),
    /// The notice was handed back.
    HandedBack(Notice),
    /// This notice was heard.
    Heard(Notice),
    /// None was heard.
    HeardNone,
}
