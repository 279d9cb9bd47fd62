ghost use Rattle.std.specs.Prelude.{◌≡◌, ◌+◌, ◌++◌, ◌∷◌, [], ◌<◌, ◌≤◌, ◌^◌, Bool, None, IfOk, IfSome, IsTrue, OnOk, OnErr, length, decimal, string_bytes, string_len, string_capacity};
ghost use Rattle.sc_http.specs.Reply.{is_status, reply_bytes, size_of};
ghost use Rattle.sc_said.specs.Said as spec;

use crate::said::Said;
use sc_base::Text;
use sc_http::{Reply, ReplyRoom};
use sc_json::push_quoted;
use std::alloc::{AllocError, Global};

#[tactic(auto, unfolding(crate::specs::Said::code_start))]
fn code_start() -> &'static str
    ensures { result.now ≡ spec.code_start }
{
    "{\"code\":"
}

#[tactic(auto, unfolding(crate::specs::Said::description_start))]
fn description_start() -> &'static str
    ensures { result.now ≡ spec.description_start }
{
    ",\"description\":"
}

#[tactic(auto, unfolding(crate::specs::Said::behind_name))]
fn behind_name() -> &'static str
    ensures { result.now ≡ spec.behind_name }
{
    "Behind"
}

#[tactic(auto, unfolding(crate::specs::Said::no_collection_name))]
fn no_collection_name() -> &'static str
    ensures { result.now ≡ spec.no_collection_name }
{
    "NoCollection"
}

#[tactic(auto, unfolding(crate::specs::Said::no_item_name))]
fn no_item_name() -> &'static str
    ensures { result.now ≡ spec.no_item_name }
{
    "NoItem"
}

/// The JSON object of a refusal's name and of what it is about.
pub fn refusal_text(alloc: Global, name: &str, about: &str) -> Result<Text, AllocError>
    ensures { IfOk result (λ text. text ≡ spec.refusal_text name.now about.now) }
{
    let mut text = String::from_str(alloc, code_start())?;
    push_quoted(&mut text, name)?;
    text.push_str(description_start())?;
    push_quoted(&mut text, about)?;
    text.push('}')?;
    Ok(Text::from_string(text))
}

/// The stated revision isn't reached.
pub fn behind(alloc: Global, revision: u64) -> Result<Said, AllocError>
    ensures { IfOk result (λ said. said ≡ spec.behind revision) }
{
    let mut buffer = itoa::Buffer::new();
    let text = refusal_text(alloc, behind_name(), buffer.format(revision))?;
    Ok(Said::of(409, false, text))
}

/// There is no such collection to be told of.
pub fn no_collection(alloc: Global, id: &Text) -> Result<Said, AllocError>
    ensures { IfOk result (λ said. said ≡ spec.no_collection id.now) }
{
    let text = refusal_text(alloc, no_collection_name(), id.as_str())?;
    Ok(Said::of(404, false, text))
}

/// There is no such item to be told of.
pub fn no_item(alloc: Global, id: &Text) -> Result<Said, AllocError>
    ensures { IfOk result (λ said. said ≡ spec.no_item id.now) }
{
    let text = refusal_text(alloc, no_item_name(), id.as_str())?;
    Ok(Said::of(404, false, text))
}

/// The bytes of a reply's body and of its list of methods.
fn size_of(reply: &Reply) -> Option<usize>
    ensures { IfSome result (λ size. size ≡ size_of reply.now) }
{
    match &reply.allow {
        Some(list) => reply.body.len().checked_add(list.len()),
        None => Some(reply.body.len()),
    }
}

/// The bytes of the reply that says so at a revision.
pub fn reply_text(alloc: Global, said: Said, revision: u64, close: bool) -> Result<Text, AllocError>
    ensures { IfOk result (λ text. text ≡ reply_bytes (spec.reply_of said revision close)) }
{
    let Said {
        status,
        geo,
        allow,
        body,
    } = said;
    let reply = Reply {
        status,
        geo,
        revision,
        close,
        allow,
        body,
    };
    let Some(size) = size_of(&reply) else {
        return Err(AllocError);
    };
    Ok(ReplyRoom::new(alloc, size)?.text(&reply))
}
