ghost use Rattle.std.specs.Prelude.{◌≡◌, [], ◌+◌, ◌++◌, ◌↔◌, ◌<◌, ◌≤◌, ◌^◌, Err, IsTrue, IsSome, IfOk, IfSome, OnOk, OnErr, string_bytes, string_len, string_capacity, decimal, length};
ghost use Rattle.std.specs.Io.KnownBytes.{Appends, Keeps};
ghost use Rattle.sc_outside.specs.Causes.{HasCause, Rose};
ghost use Rattle.sc_outside.specs.Outside.{AppendsFront};
ghost use Rattle.sc_http.specs.Reply as spec;
ghost use Rattle.sc_http.specs.declared.reply.ReplyFault.TheVariants.{OutOfMemory, WriteFault};

use crate::status::phrase_of;
use sc_base::Text;
use sc_outside::{Failed, Sink, write_all};
use std::alloc::{AllocError, Global};
use std::marker::Model;

/// The most bytes of a reply's head, but for a long list of methods.
const ROOM_FOR_HEAD: usize = 512;

/// A reply, but for that to want of memory.
#[derive(Debug, Drop)]
pub struct Reply {
    /// 200, 201, 400, 404, 405, 409, 411, 413, 431, 500, 501 or 507.
    pub status: u16,
    /// Whether the body is GeoJSON, as a page or an item, and not any other JSON.
    pub geo: bool,
    /// The catalogue's revision that the reply speaks of.
    pub revision: u64,
    /// Whether the connection ends after the reply.
    pub close: bool,
    /// The methods that are allowed, with a comma and a blank between two of them.
    pub allow: Option<Text>,
    /// A JSON text.
    pub body: Text,
}

/// Why a reply wasn't written whole.
#[derive(Clone, Copy, Debug, PartialEq, Eq)]
pub enum ReplyFault {
    /// Writing failed, and a front of the reply was written.
    WriteFault,
    /// Memory was wanting, and nothing was written.
    OutOfMemory,
}

impl From<AllocError> for ReplyFault {
    ghost from_gives = { λ _ e. e ≡ OutOfMemory };

    fn from(_: AllocError) -> Self {
        ReplyFault::OutOfMemory
    }
}

#[tactic(auto, unfolding(crate::specs::Reply::version_text))]
fn version_text() -> &'static str
    ensures { result.now ≡ spec.version_text }
{
    "HTTP/1.1 "
}

#[tactic(auto, unfolding(crate::specs::Reply::type_text))]
fn type_text(geo: bool) -> &'static str
    ensures { result.now ≡ spec.type_text geo }
{
    if geo {
        return "\r\nContent-Type: application/geo+json";
    }
    "\r\nContent-Type: application/json"
}

#[tactic(auto, unfolding(crate::specs::Reply::length_text))]
fn length_text() -> &'static str
    ensures { result.now ≡ spec.length_text }
{
    "\r\nContent-Length: "
}

#[tactic(auto, unfolding(crate::specs::Reply::revision_text))]
fn revision_text() -> &'static str
    ensures { result.now ≡ spec.revision_text }
{
    "\r\nCatalogue-Revision: "
}

#[tactic(auto, unfolding(crate::specs::Reply::allow_text))]
fn allow_text() -> &'static str
    ensures { result.now ≡ spec.allow_text }
{
    "\r\nAllow: "
}

#[tactic(auto, unfolding(crate::specs::Reply::close_text))]
fn close_text() -> &'static str
    ensures { result.now ≡ spec.close_text }
{
    "\r\nConnection: close"
}

#[tactic(auto, unfolding(crate::specs::Reply::end_text))]
fn end_text() -> &'static str
    ensures { result.now ≡ spec.end_text }
{
    "\r\n\r\n"
}

/// Adds a number in decimal.
fn put_number(text: &mut String, number: u64) -> Result<(), AllocError>
    ensures bytes { OnOk result (string_bytes text.new ≡ string_bytes text.old ++ decimal number) }
    ensures len { OnOk result (string_len text.new ≡ string_len text.old + length (decimal number)) }
    ensures capacity { string_capacity text.old ≤ string_capacity text.new }
    ensures full { OnErr result (string_capacity text.old < string_len text.old + length (decimal number)) }
{
    let mut buffer = itoa::Buffer::new();
    text.push_str(buffer.format(number))
}

/// Adds the line of the methods that are allowed.
fn put_allow(text: &mut String, allow: &Option<Text>) -> Result<(), AllocError>
    ensures bytes { OnOk result (string_bytes text.new ≡ string_bytes text.old ++ spec.allow_line allow.now) }
    ensures len { OnOk result (string_len text.new ≡ string_len text.old + length (spec.allow_line allow.now)) }
    ensures capacity { string_capacity text.old ≤ string_capacity text.new }
    ensures full { OnErr result (string_capacity text.old < string_len text.old + length (spec.allow_line allow.now)) }
{
    if let Some(list) = allow {
        text.push_str(allow_text())?;
        text.push_str(list.as_str())?;
    }
    Ok(())
}

/// Adds the line that tells the connection's end.
fn put_close(text: &mut String, close: bool) -> Result<(), AllocError>
    ensures bytes { OnOk result (string_bytes text.new ≡ string_bytes text.old ++ spec.close_line close) }
    ensures len { OnOk result (string_len text.new ≡ string_len text.old + length (spec.close_line close)) }
    ensures capacity { string_capacity text.old ≤ string_capacity text.new }
    ensures full { OnErr result (string_capacity text.old < string_len text.old + length (spec.close_line close)) }
{
    if close {
        return text.push_str(close_text());
    }
    Ok(())
}

/// Adds the status line but for its end.
fn put_status(text: &mut String, status: u16) -> Result<(), AllocError>
    requires { IsTrue (spec.is_status status) }
    ensures bytes { OnOk result (string_bytes text.new ≡ string_bytes text.old ++ spec.status_line status) }
    ensures len { OnOk result (string_len text.new ≡ string_len text.old + length (spec.status_line status)) }
    ensures capacity { string_capacity text.old ≤ string_capacity text.new }
    ensures full { OnErr result (string_capacity text.old < string_len text.old + length (spec.status_line status)) }
{
    text.push_str(version_text())?;
    put_number(text, u64::from(status))?;
    text.push_str(" ")?;
    text.push_str(phrase_of(status))
}

/// Adds the length of a body.
fn put_length(text: &mut String, len: u64) -> Result<(), AllocError>
    ensures bytes { OnOk result (string_bytes text.new ≡ string_bytes text.old ++ spec.length_text ++ decimal len) }
    ensures len { OnOk result (string_len text.new ≡ string_len text.old + length (spec.length_text ++ decimal len)) }
    ensures capacity { string_capacity text.old ≤ string_capacity text.new }
    ensures full { OnErr result (string_capacity text.old < string_len text.old + length (spec.length_text ++ decimal len)) }
{
    text.push_str(length_text())?;
    put_number(text, len)
}

/// Adds the catalogue's revision.
fn put_revision(text: &mut String, revision: u64) -> Result<(), AllocError>
    ensures bytes { OnOk result (string_bytes text.new ≡ string_bytes text.old ++ spec.revision_text ++ decimal revision) }
    ensures len { OnOk result (string_len text.new ≡ string_len text.old + length (spec.revision_text ++ decimal revision)) }
    ensures capacity { string_capacity text.old ≤ string_capacity text.new }
    ensures full { OnErr result (string_capacity text.old < string_len text.old + length (spec.revision_text ++ decimal revision)) }
{
    text.push_str(revision_text())?;
    put_number(text, revision)
}

/// Adds a reply whole.
#[tactic(auto, using(crate::proofs::Replies::reply_length))]
fn put_reply(text: &mut String, reply: &Reply) -> Result<(), AllocError>
    requires { IsTrue (spec.is_status reply.now.status) }
    ensures bytes { OnOk result (string_bytes text.new ≡ string_bytes text.old ++ spec.reply_bytes reply.now) }
    ensures full { OnErr result (string_capacity text.old < string_len text.old + length (spec.reply_bytes reply.now)) }
{
    put_status(text, reply.status)?;
    text.push_str(type_text(reply.geo))?;
    put_length(text, reply.body.len() as u64)?;
    put_revision(text, reply.revision)?;
    put_allow(text, &reply.allow)?;
    put_close(text, reply.close)?;
    text.push_str(end_text())?;
    text.push_str(reply.body.as_str())?;
    Ok(())
}

/// The bytes of a reply's body and of its list of methods.
fn size_of(reply: &Reply) -> Option<usize>
    ensures { IfSome result (λ size. size ≡ spec.size_of reply.now) }
{
    match &reply.allow {
        Some(list) => reply.body.len().checked_add(list.len()),
        None => Some(reply.body.len()),
    }
}

/// Memory for a reply, taken before the reply is known. Contracts see how many bytes the reply's body and its list of
/// methods may have together.
#[derive(Debug, Drop)]
pub struct ReplyRoom {
    text: String,
    ghost empty: { (string_bytes text ≡ []) × (string_len text ≡ 0) },
    ghost wide: { 512 ≤ string_capacity text },
}

impl Model for ReplyRoom {
    ghost use Rattle.std.specs.Prelude.{ℕ, ◌-◌, string_capacity};

    ghost Value = { ℕ };

    ghost view = { λ room. string_capacity room.text - 512 };
}

impl ReplyRoom {
    /// Room for a reply whose body and list of methods have at most so many bytes together.
    pub fn new(alloc: Global, most: usize) -> Result<ReplyRoom, AllocError>
        ensures { IfOk result (λ room. room ≡ most) }
    {
        let Some(size) = most.checked_add(ROOM_FOR_HEAD) else {
            return Err(AllocError);
        };
        let text = String::with_capacity(alloc, size)?;
        Ok(ReplyRoom { text })
    }

    /// The bytes of a reply that there is room for. Takes no memory.
    #[tactic(auto, using(crate::proofs::Replies::reply_short))]
    pub fn text(self, reply: &Reply) -> Text
        requires status { IsTrue (spec.is_status reply.now.status) }
        requires room { spec.size_of reply.now ≤ self }
        ensures { result ≡ spec.reply_bytes reply.now }
    {
        // The numbers are short.
        let _length = reply.body.len();
        let _revision = reply.revision;
        let ReplyRoom { text } = self;
        let mut text = text;
        match put_reply(&mut text, reply) {
            Ok(()) => Text::from_string(text),
            Err(_) => unreachable!(),
        }
    }
}

/// Writes a reply that there is room for, and flushes. Takes no memory, and fails only where the sink failed in this
/// call: then a front of the reply was written.
pub fn write_reply_in<K: Sink>(room: ReplyRoom, sink: &mut K, reply: &Reply) -> Result<(), Failed>
    requires status { IsTrue (spec.is_status reply.now.status) }
    requires room { spec.size_of reply.now ≤ room }
    ensures ok { OnOk result (Appends (K.written sink.old) (K.written sink.new) (spec.reply_bytes reply.now)) }
    ensures err { OnErr result (AppendsFront (K.written sink.old) (K.written sink.new) (spec.reply_bytes reply.now)) }
    ensures cause { HasCause (K.faults sink.old) (K.faults sink.new) result }
{
    let text = room.text(reply);
    write_all(sink, text.bytes())
}

/// Writes a reply (RFC 9112, sections 4 and 6.2), and flushes. All is handed to the sink at once, so that a sink that
/// takes it all is called once for it.
/// `WriteFault` comes only where the sink failed in this call, and then a front of the reply was written; after
/// `OutOfMemory` nothing was.
pub fn write_reply<K: Sink>(alloc: Global, sink: &mut K, reply: &Reply) -> Result<(), ReplyFault>
    requires status { IsTrue (spec.is_status reply.now.status) }
    requires allow { (reply.now.status ≡ 405) ↔ IsSome reply.now.allow }
    ensures ok { OnOk result (Appends (K.written sink.old) (K.written sink.new) (spec.reply_bytes reply.now)) }
    ensures write { result ≡ Err WriteFault → AppendsFront (K.written sink.old) (K.written sink.new) (spec.reply_bytes reply.now) × Rose (K.faults sink.old) (K.faults sink.new) }
    ensures memory { result ≡ Err OutOfMemory → Keeps (K.written sink.old) (K.written sink.new) }
    ensures later { K.faults sink.old ≤ K.faults sink.new }
{
    let Some(size) = size_of(reply) else {
        return Err(ReplyFault::OutOfMemory);
    };
    let room = ReplyRoom::new(alloc, size)?;
    match write_reply_in(room, sink, reply) {
        Ok(()) => Ok(()),
        Err(_) => Err(ReplyFault::WriteFault),
    }
}

/// The reply to want of memory, after which the connection ends: status 503, the one reply without a revision.
#[tactic(auto, unfolding(crate::specs::Reply::unavailable_bytes))]
pub fn unavailable_reply() -> &'static [u8]
    ensures { result.now ≡ spec.unavailable_bytes }
{
    b"HTTP/1.1 503 Service Unavailable\r\nContent-Length: 0\r\nConnection: close\r\n\r\n"
}
