use sc_base::{Boxed, Text};
use sc_decimal::Dec;
use sc_geom::Geom;
use sc_time::Instant;

/// What a comparison compares.
#[derive(Debug, Drop)]
pub enum Scalar {
    /// The value that a property of an item has, by the property's name.
    Prop(Text),
    Text(Text),
    Number(Dec),
    Truth(bool),
    Moment(Instant),
    /// A scalar whose text is compared without regard to case (`CASEI`).
    Folded(Boxed<Scalar>),
}

/// What a text is matched against: `%` is any run of characters, `_` is one character, and a backslash takes the next
/// character literally.
#[derive(Debug, Drop)]
pub struct Pattern {
    pub text: Text,
    /// Whether the pattern is matched without regard to case (`CASEI`).
    pub folded: bool,
}

/// What a spatial function relates.
#[derive(Debug, Drop)]
pub enum Shape {
    /// The geometry that a property of an item has, by the property's name.
    Prop(Text),
    Geom(Geom),
}
