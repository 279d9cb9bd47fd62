ghost use Rattle.std.specs.Prelude.{◌≡◌, ◌+◌, ◌++◌, ◌∷◌, [], ◌<◌, ◌≤◌, IfOk, OnOk, OnErr, length, decimal, string_bytes, string_len, string_capacity};
ghost use Rattle.sc_http.specs.Reply.{reply_bytes};
ghost use Rattle.sc_said.specs.Said as spec;

use sc_base::Text;
use sc_http::{Reply, ReplyRoom};
use std::alloc::{AllocError, Global};

/// The most bytes of the body of such a reply.
const MOST: usize = 64;

/// Memory for the reply to a load that the history has, stored or not, taken before its turn.
#[derive(Drop)]
pub struct LoadRoom {
    body: String,
    reply: ReplyRoom,
    ghost empty: { (string_bytes body ≡ []) × (string_len body ≡ 0) },
    ghost wide: { 64 ≤ string_capacity body },
    ghost held: { 64 ≤ reply },
}

#[tactic(auto, unfolding(crate::specs::Said::revision_start))]
fn revision_start() -> &'static str
    ensures { result.now ≡ spec.revision_start }
{
    "{\"revision\":"
}

#[tactic(auto, unfolding(crate::specs::Said::items_start))]
fn items_start() -> &'static str
    ensures { result.now ≡ spec.items_start }
{
    ",\"items\":"
}

#[tactic(auto, unfolding(crate::specs::Said::not_stored_start))]
fn not_stored_start() -> &'static str
    ensures { result.now ≡ spec.not_stored_start }
{
    "{\"code\":\"NotStored\",\"description\":\""
}

/// Adds a number in decimal.
fn put_number(text: &mut String, number: u64) -> Result<(), AllocError>
    ensures bytes { OnOk result (string_bytes text.new ≡ string_bytes text.old ++ decimal number) }
    ensures len { OnOk result (string_len text.new ≡ string_len text.old + length (decimal number)) }
    ensures capacity { string_capacity text.old ≤ string_capacity text.new }
    ensures full { OnErr result (string_capacity text.old < string_len text.old + length (decimal number)) }
{
    let mut buffer = itoa::Buffer::new();
    text.push_str(buffer.format(number))
}

/// Adds the JSON object of the revision that a load made, and of the number of items.
#[tactic(auto, using(crate::proofs::Rooms::load_length))]
fn put_load(text: &mut String, revision: u64, items: u64) -> Result<(), AllocError>
    ensures bytes { OnOk result (string_bytes text.new ≡ string_bytes text.old ++ spec.load_text revision items) }
    ensures full { OnErr result (string_capacity text.old < string_len text.old + length (spec.load_text revision items)) }
{
    text.push_str(revision_start())?;
    put_number(text, revision)?;
    text.push_str(items_start())?;
    put_number(text, items)?;
    text.push_str("}")
}

/// The body of an accepted load's reply, for which there is room.
fn load_body(body: String, revision: u64, items: u64) -> Text
    requires empty { (string_bytes body ≡ []) × (string_len body ≡ 0) }
    requires wide { 64 ≤ string_capacity body }
    ensures { result ≡ spec.load_text revision items }
{
    let mut body = body;
    match put_load(&mut body, revision, items) {
        Ok(()) => Text::from_string(body),
        Err(_) => unreachable!(),
    }
}

/// Adds the JSON object that tells how many loads are stored.
#[tactic(auto, using(crate::proofs::Rooms::not_stored_length))]
fn put_not_stored(text: &mut String, stored: u64) -> Result<(), AllocError>
    ensures bytes { OnOk result (string_bytes text.new ≡ string_bytes text.old ++ spec.not_stored_text stored) }
    ensures full { OnErr result (string_capacity text.old < string_len text.old + length (spec.not_stored_text stored)) }
{
    text.push_str(not_stored_start())?;
    put_number(text, stored)?;
    text.push_str("\"}")
}

/// The body of the reply to a load that isn't stored, for which there is room.
fn not_stored_body(body: String, stored: u64) -> Text
    requires empty { (string_bytes body ≡ []) × (string_len body ≡ 0) }
    requires wide { 64 ≤ string_capacity body }
    ensures { result ≡ spec.not_stored_text stored }
{
    let mut body = body;
    match put_not_stored(&mut body, stored) {
        Ok(()) => Text::from_string(body),
        Err(_) => unreachable!(),
    }
}

impl LoadRoom {
    /// Room for the reply to any load.
    pub fn new(alloc: Global) -> Result<LoadRoom, AllocError> {
        let body = String::with_capacity(alloc, MOST)?;
        let reply = ReplyRoom::new(alloc, MOST)?;
        Ok(LoadRoom { body, reply })
    }

    /// The bytes of the reply to an accepted load. Takes no memory.
    pub fn text(self, made: bool, revision: u64, items: u64, close: bool) -> Text
        ensures { result ≡ reply_bytes (spec.reply_of (spec.accepted_of made revision items) revision close) }
    {
        let LoadRoom { body, reply } = self;
        let body = load_body(body, revision, items);
        let status = if made { 201 } else { 200 };
        reply.text(&Reply {
            status,
            geo: false,
            revision,
            close,
            allow: None,
            body,
        })
    }

    /// The bytes of the reply to a load that the history has and that isn't stored. Takes no memory.
    pub fn not_stored(self, stored: u64, revision: u64, close: bool) -> Text
        ensures { result ≡ reply_bytes (spec.reply_of (spec.not_stored stored) revision close) }
    {
        let LoadRoom { body, reply } = self;
        let body = not_stored_body(body, stored);
        reply.text(&Reply {
            status: 500,
            geo: false,
            revision,
            close,
            allow: None,
            body,
        })
    }
}
