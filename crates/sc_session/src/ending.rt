use sc_http::{HeadFault, LengthFault};

/// How a connection ended.
#[derive(Clone, Copy, Debug, PartialEq, Eq)]
pub enum ConnEnd {
    /// The last request asked to close, or the input ended behind it.
    Ended,
    /// The input ended within a request, of which so many bytes are there.
    Cut { taken: u64 },
    /// What followed is no head of a request.
    BadHead { fault: HeadFault },
    /// The head that followed states no length of a body that is taken.
    BadLength { fault: LengthFault },
    /// Reading failed.
    ReadFault,
    /// Writing failed.
    WriteFault,
    /// So many bytes as a connection may bring were taken.
    Spent,
    /// Memory was wanting.
    OutOfMemory,
}
