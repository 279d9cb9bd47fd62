use sc_base::{Seq, Text};

/// A header line: its name as it was sent, and its value without the white space around it (RFC 9112, section 5).
#[derive(Debug, Drop)]
pub struct Header {
    pub name: Text,
    pub value: Seq<u8>,
}

/// A request with its whole body.
#[derive(Debug, Drop)]
pub struct Request {
    pub method: Text,
    /// The request target as it was sent. It is UTF-8.
    pub target: Seq<u8>,
    /// The header lines in their order.
    pub headers: Seq<Header>,
    /// The bytes behind the head, as many as `Content-Length` says, and none without it.
    pub body: Seq<u8>,
    /// Whether the sender asks that the connection ends after the reply: it speaks HTTP/1.0, or a `Connection` line has
    /// the member `close` (RFC 9112, section 9.3).
    pub close: bool,
}
