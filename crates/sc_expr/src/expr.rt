use crate::scalar::{Pattern, Scalar, Shape};
use sc_base::{Boxed, Seq};

/// How two scalars are compared.
#[derive(Clone, Copy, Debug, PartialEq, Eq)]
pub enum CompOp {
    Eq,
    Ne,
    Lt,
    Gt,
    Le,
    Ge,
}

/// A truth value where some values are missing or can't be compared (OGC 21-065, three-valued logic).
#[derive(Clone, Copy, Debug, PartialEq, Eq)]
pub enum Truth3 {
    True,
    False,
    Unknown,
}

/// An expression of CQL2, which is true, false or unknown of an item.
#[derive(Debug, Drop)]
pub enum Expr {
    Const(bool),
    And(Seq<Expr>),
    Or(Seq<Expr>),
    Not(Boxed<Expr>),
    Compare(CompOp, Scalar, Scalar),
    /// Whether the scalar has no value.
    IsNull(Scalar),
    /// Whether the first scalar lies between the second and the third, or equals one of them.
    Between(Scalar, Scalar, Scalar),
    /// Whether the scalar equals one of the list.
    Among(Scalar, Seq<Scalar>),
    Like(Scalar, Pattern),
    /// Whether two shapes have a position in common (`S_INTERSECTS`).
    Meets(Shape, Shape),
}
