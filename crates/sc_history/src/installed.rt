/// What an install of a hull answers.
#[derive(Clone, Copy, Debug, PartialEq, Eq)]
pub enum Installed {
    /// Nothing changed the part since the hull was taken: it is the part's bounds now.
    Exact,
    /// The part's bounds now lie within the hull and the additions since.
    Joined,
    /// An addition since then isn't kept, or the part was made anew: its bounds stay.
    TooOld {
        /// The revision from which on the part's additions are kept.
        kept_from: u64,
    },
    /// There is no such part.
    Gone,
}
