ghost use Rattle.sc_http.specs.declared.fault.HttpEnd.TheVariants.{BadLength, OutOfMemory};
ghost use Rattle.std.specs.Prelude.{◌≡◌};

use std::alloc::{AllocError, AllocFailed};

/// Why bytes aren't taken as a head.
#[derive(Clone, Copy, Debug, PartialEq, Eq)]
pub enum HeadFault {
    /// No bytes can follow that make them a head.
    Malformed,
    /// They have no head of at most 65,536 bytes and 64 header lines, and no more room for one.
    TooLarge,
}

/// Why the length of a body isn't taken: the first of these that holds (RFC 9112, section 6.3).
#[derive(Clone, Copy, Debug, PartialEq, Eq)]
pub enum LengthFault {
    /// `Transfer-Encoding` is there.
    Coded,
    /// `Content-Length` isn't digits, or is there twice.
    Unreadable,
    /// `Content-Length` is above 16,777,216 bytes.
    TooLong,
}

/// How the requests of a connection end where its input doesn't end between two of them.
#[derive(Clone, Copy, Debug, PartialEq, Eq)]
pub enum HttpEnd {
    /// The input ended within a request, of which so many bytes are there.
    Cut { taken: u64 },
    /// The bytes are no head.
    BadHead { fault: HeadFault },
    /// The head's lines give no length of a body.
    BadLength { fault: LengthFault },
    /// Reading failed.
    ReadFault,
    /// So many bytes as a connection may bring, 2^40, were taken.
    Spent,
    /// Memory was wanting.
    OutOfMemory,
}

impl From<LengthFault> for HttpEnd {
    ghost from_gives = { λ fault e. e ≡ BadLength fault };

    fn from(fault: LengthFault) -> Self {
        HttpEnd::BadLength { fault }
    }
}

impl From<AllocError> for HttpEnd {
    ghost from_gives = { λ _ e. e ≡ OutOfMemory };

    fn from(_: AllocError) -> Self {
        HttpEnd::OutOfMemory
    }
}

impl<T: Drop> From<AllocFailed<T>> for HttpEnd {
    ghost from_gives = { λ _ e. e ≡ OutOfMemory };

    fn from(_: AllocFailed<T>) -> Self {
        HttpEnd::OutOfMemory
    }
}
