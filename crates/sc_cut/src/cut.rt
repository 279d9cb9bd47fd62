/// How a collection is cut into parts: not at all, or by the year or the month of UTC in which its items start.
#[derive(Clone, Copy, Debug, PartialEq, Eq, PartialOrd, Ord)]
pub enum Cut {
    /// The collection is one part.
    Whole,
    /// There is a part for each year.
    Year,
    /// There is a part for each month.
    Month,
}
