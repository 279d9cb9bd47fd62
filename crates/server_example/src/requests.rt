//! Requests as clients send them, and connections that bring them.
use sc_base::Seq;
use sc_outside::{MemSink, MemSource};
use std::alloc::{AllocError, Global};

/// So many bytes the replies of a story take at most.
const ROOM: u64 = 1 << 16;

/// A request without a body.
pub fn get(alloc: Global, path: &str) -> Result<String, AllocError> {
    format!(in alloc; "GET {path} HTTP/1.1\r\nHost: h\r\n\r\n")
}

/// A request with a body.
pub fn post(alloc: Global, path: &str, body: &str) -> Result<String, AllocError> {
    let length = body.len();
    format!(in alloc; "POST {path} HTTP/1.1\r\nHost: h\r\nContent-Length: {length}\r\n\r\n{body}")
}

/// A request that makes a collection, whose items are kept by months.
pub fn post_collection(alloc: Global, id: &str) -> Result<String, AllocError> {
    let body = format!(in alloc; "{{\"id\":\"{id}\",\"catalogue:cut\":\"month\"}}")?;
    post(alloc, "/collections", body.as_str())
}

/// A connection over memory that brings these bytes.
pub fn connection(alloc: Global, requests: &str) -> Result<(MemSource, MemSink), AllocError> {
    let mut bytes = Vec::with_capacity(alloc, requests.len())?;
    bytes.extend_from_slice(requests.as_bytes())?;
    let source = MemSource::new(Seq::of(bytes), Seq::new(alloc));
    Ok((source, MemSink::new(alloc, ROOM, Seq::new(alloc))?))
}
