/// A rule of the grammar of CQL2 text and of WKT.
#[derive(Clone, Copy, Debug, PartialEq, Eq)]
pub enum Rule {
    /// A filter, and the end of the text.
    Whole,
    Filter,
    /// The other terms of a filter.
    OrRest,
    Term,
    /// The other factors of a term.
    AndRest,
    Factor,
    Primary,
    /// What stands behind TRUE or FALSE at the front of a primary.
    TruthRest,
    /// What a predicate says of its first scalar.
    Test,
    /// What stands behind IS.
    NullTest,
    /// A test before which NOT may stand.
    Negatable,
    /// The other scalars of a list.
    ScalarRest,
    Scalar,
    /// A scalar other than TRUE and FALSE.
    Operand,
    /// A name, quoted or not.
    Name,
    Pattern,
    Shape,
    /// The last two numbers of a box with heights.
    SideRest,
    Geometry,
    /// The word `Z`, or nothing.
    ZWord,
    /// The other geometries of a collection.
    GeometryRest,
    /// A point of a MULTIPOINT.
    Member,
    /// The other points of a MULTIPOINT.
    MemberRest,
    Line,
    /// The other lines of a MULTILINESTRING.
    LineRest,
    Area,
    /// The other areas of a MULTIPOLYGON.
    AreaRest,
    /// A line of an area.
    Ring,
    /// The other rings of an area.
    RingRest,
    Position,
    /// The height of a position, or nothing.
    Height,
    /// The other positions of a line.
    PositionRest,
}
