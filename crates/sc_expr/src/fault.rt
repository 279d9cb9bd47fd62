use std::alloc::{AllocError, AllocFailed};

/// Why an expression is no filter: the first of these that holds. A count stays at the greatest number of its type.
#[derive(Clone, Copy, Debug, PartialEq, Eq)]
pub enum ExprFault {
    /// It is deeper than 24.
    TooDeep { depth: u32 },
    /// It has more than 1,024 nodes.
    TooManyNodes { count: u64 },
}

/// Why a text or a tree of CQL2 (OGC 21-065r2) is no filter. What a place counts its reader says: the bytes of a text, or
/// the values of a tree, each from 0.
#[derive(Clone, Copy, Debug, PartialEq, Eq)]
pub enum CqlFault {
    /// What stands at this place can't stand there, or something is missing there.
    Syntax { at: u64 },
    /// The filter is deeper than 24, or a text's parentheses nest too deep.
    TooDeep,
    /// The filter has more than 1,024 nodes.
    TooManyNodes,
    /// A literal at this place can't be read: an instant or date that is none, a box or geometry that is refused, or a
    /// number that is too wide.
    BadLiteral { at: u64 },
    /// Memory ran out, at any place.
    OutOfMemory,
}

impl From<AllocError> for CqlFault {
    ghost use Rattle.std.specs.Prelude.{◌≡◌};
    ghost use Rattle.sc_expr.specs.declared.fault.CqlFault.TheVariants.{OutOfMemory};

    ghost from_gives = { λ _ e. e ≡ OutOfMemory };

    fn from(_e: AllocError) -> CqlFault {
        CqlFault::OutOfMemory
    }
}

impl<T: Drop> From<AllocFailed<T>> for CqlFault {
    ghost use Rattle.std.specs.Prelude.{◌≡◌};
    ghost use Rattle.sc_expr.specs.declared.fault.CqlFault.TheVariants.{OutOfMemory};

    ghost from_gives = { λ _ e. e ≡ OutOfMemory };

    fn from(_e: AllocFailed<T>) -> CqlFault {
        CqlFault::OutOfMemory
    }
}
