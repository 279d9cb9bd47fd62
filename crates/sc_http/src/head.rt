ghost use Rattle.std.specs.Prelude.{◌≡◌, ◌≤◌, map, length, IfOk, All, IsUtf8};
ghost use Rattle.httparse.specs.Spans.{IsRequestOf, IsRequestWithin};
ghost use Rattle.sc_http.specs.Heads.{HeadOf, IsNamedAt, header_at as header_of_span};
ghost use Rattle.sc_http.specs.declared.head.Judged.TheVariants.{Found};

use crate::request::Header;
use httparse::spans::{EMPTY_HEADER_SPAN, HeaderSpan, RequestSpans, parse_request};
use httparse::{Error, Status};
use sc_base::{Seq, Text};
use std::alloc::{AllocError, Global};

/// The most header lines.
const MOST_LINES: usize = 64;

/// The head of a request, and its length in bytes.
#[derive(Debug, Drop)]
pub struct Head {
    pub method: Text,
    pub target: Seq<u8>,
    pub headers: Seq<Header>,
    pub minor: u8,
    pub len: usize,
}

/// What bytes are, taken as a head.
#[derive(Debug, Drop)]
pub enum Judged {
    Found(Head),
    Unfinished,
    Malformed,
}

/// The text of bytes that are one.
fn text_of(alloc: Global, bytes: &[u8]) -> Result<Text, AllocError>
    requires { IsUtf8 bytes.now }
    ensures { IfOk result (λ text. text ≡ bytes.now) }
{
    match Text::of(alloc, bytes)? {
        Some(text) => Ok(text),
        None => unreachable!(),
    }
}

/// A copy of bytes.
fn copy_of(alloc: Global, bytes: &[u8]) -> Result<Seq<u8>, AllocError>
    ensures { IfOk result (λ copy. copy ≡ bytes.now) }
{
    Ok(Seq::of(Vec::from_slice(alloc, bytes)?))
}

/// The header at one place.
fn header_at(alloc: Global, bytes: &[u8], span: &HeaderSpan) -> Result<Header, AllocError>
    requires { IsNamedAt bytes.now span.now }
    ensures { IfOk result (λ header. header ≡ header_of_span bytes.now span.now) }
{
    let name = text_of(alloc, span.name.of(bytes))?;
    let value = copy_of(alloc, span.value.of(bytes))?;
    Ok(Header { name, value })
}

/// The headers at these places.
fn headers_at(alloc: Global, bytes: &[u8], spans: &[HeaderSpan]) -> Result<Seq<Header>, AllocError>
    requires { All (IsNamedAt bytes.now) spans.now }
    ensures { IfOk result (λ headers. headers ≡ map (header_of_span bytes.now) spans.now) }
{
    let mut headers = Vec::with_capacity(alloc, spans.len())?;
    for span in spans {
        headers.push(header_at(alloc, bytes, span)?)?;
    }
    Ok(Seq::of(headers))
}

/// The head whose parts are at these places.
fn head_at(
    alloc: Global,
    bytes: &[u8],
    spans: &[HeaderSpan],
    found: RequestSpans,
) -> Result<Head, AllocError>
    requires within { IsRequestWithin bytes.now spans.now found }
    requires parts { IsRequestOf bytes.now spans.now found }
    requires few { length spans.now ≤ 64 }
    ensures { IfOk result (λ head. HeadOf bytes.now (Found head)) }
{
    let method = text_of(alloc, found.method.of(bytes))?;
    let target = copy_of(alloc, found.path.of(bytes))?;
    let headers = headers_at(alloc, bytes, &spans[..found.headers])?;
    Ok(Head {
        method,
        target,
        headers,
        minor: found.version,
        len: found.len,
    })
}

/// The head of a request at the front of the bytes.
pub fn judge(alloc: Global, bytes: &[u8]) -> Result<Judged, AllocError>
    ensures { IfOk result (λ judged. HeadOf bytes.now judged) }
{
    let mut spans = [EMPTY_HEADER_SPAN; MOST_LINES];
    match parse_request(bytes, &mut spans) {
        Ok(Status::Complete(found)) => Ok(Judged::Found(head_at(alloc, bytes, &spans, found)?)),
        Ok(Status::Partial) => Ok(Judged::Unfinished),
        Err(Error::TooManyHeaders) => Ok(Judged::Unfinished),
        Err(_) => Ok(Judged::Malformed),
    }
}
