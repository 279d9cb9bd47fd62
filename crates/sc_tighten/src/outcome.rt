use sc_desk::Installed;

/// What became of a turn of the work that heard no `Stop`.
#[derive(Clone, Copy, Debug)]
pub enum Outcome {
    /// No notice was heard.
    Idle,
    /// The part's hull was installed with this answer, or the part wasn't there to be looked at.
    Told(Installed),
    /// There was no memory for the look or for the install.
    NoMemory,
}
