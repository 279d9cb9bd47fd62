/// What a place within an alternative of a rule means to the value that is read. "It" is the token just before.
#[derive(Clone, Copy, Debug, PartialEq, Eq)]
pub enum Mark {
    /// A chain of expressions begins.
    Chain,
    /// The expression before is the next one of the chain.
    Link,
    /// The chain ends: one expression is itself, more are their Or.
    Or,
    /// The chain ends: one expression is itself, more are their And.
    And,
    /// The expression before is negated.
    Negate,
    /// The scalar true.
    True,
    /// The scalar false.
    False,
    /// The truth value before is an expression.
    Constant,
    /// The two scalars before are compared by `=`.
    Equal,
    /// The two scalars before are compared by `<>`.
    NotEqual,
    /// The two scalars before are compared by `<`.
    Less,
    /// The two scalars before are compared by `>`.
    Greater,
    /// The two scalars before are compared by `<=`.
    AtMost,
    /// The two scalars before are compared by `>=`.
    AtLeast,
    /// The scalar before is tested for null.
    IsNull,
    /// The first of the three scalars before lies between the others.
    Between,
    /// A list of scalars begins.
    List,
    /// The scalar before is the next one of the list.
    Element,
    /// The scalar before the list is among it.
    Among,
    /// The scalar before is like the pattern before.
    Like,
    /// It names a property, as a scalar.
    Property,
    /// It is a text, as a scalar.
    Text,
    /// It is a number, as a scalar.
    Number,
    /// It is the text of an instant.
    Instant,
    /// It is the text of a date.
    Day,
    /// The scalar before is folded.
    Fold,
    /// It is the text of a pattern.
    Pattern,
    /// The pattern before is folded.
    FoldPattern,
    /// The two shapes before are asked whether they meet.
    Meets,
    /// It names a property, as a shape.
    NamedShape,
    /// A geometry that stands within no other begins.
    Outermost,
    /// What was drawn since is a geometry, as a shape.
    Geometry,
    /// It is the word BBOX.
    Box,
    /// It is the next number of a box.
    Side,
    /// The numbers before are a box, as a shape.
    Rectangles,
    /// It is the longitude of a position.
    Longitude,
    /// It is the latitude of a position.
    Latitude,
    /// It is the height of a position.
    Height,
    /// The positions before are points.
    Points,
    /// The positions before are a line.
    Line,
    /// The positions before are a ring.
    Ring,
    /// The rings before are an area.
    Area,
}
