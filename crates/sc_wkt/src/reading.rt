use crate::drawing::Drawing;

/// Where reading a geometry ended.
#[derive(Clone, Copy, Debug, PartialEq, Eq)]
pub(crate) enum End {
    /// A whole geometry ends before this byte.
    Whole(usize),
    /// No geometry goes on with the token at this byte.
    Refused(usize),
}

/// What reading a geometry came to.
#[derive(Drop)]
pub(crate) struct Reading {
    pub(crate) drawing: Drawing,
    /// Where the first number stands that is too wide.
    pub(crate) wide: Option<u64>,
    pub(crate) end: End,
}
