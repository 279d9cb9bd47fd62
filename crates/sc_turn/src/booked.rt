//! A value with a history.
ghost use Rattle.std.specs.Prelude.{◌≡◌, ℕ, List, length};

/// A value that names its history: a list of entries, oldest first, each with the number of the pass that made it.
pub trait Booked {
    type Entry;

    ghost history: { Self → List Self.Entry };

    ghost by: { Self.Entry → ℕ };

    /// The length of the history.
    fn booked(&self) -> u64
        ensures { result ≡ length (history self.now) };
}
