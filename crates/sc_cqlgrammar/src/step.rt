use crate::mark::Mark;

/// What the machine comes to with a token.
#[derive(Clone, Copy, Debug, PartialEq, Eq)]
pub enum Step {
    /// A place that means something stands before the token.
    Mark(Mark),
    /// The token is taken.
    Taken,
    /// No front goes on with the token.
    Refused,
}
