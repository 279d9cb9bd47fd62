ghost use Rattle.std.specs.Prelude.{◌≡◌, ◌++◌, OnOk, string_bytes};
ghost use Rattle.sc_document.specs.Documents as spec;

use sc_base::Text;
use sc_json::push_quoted;
use std::alloc::{AllocError, Global};

/// What a link of a document leads to.
#[derive(Clone, Copy, Debug)]
pub enum Link {
    Root,
    Own,
    Conformance,
    Data,
    GetSearch,
    PostSearch,
}

#[tactic(auto, unfolding(crate::specs::Documents::start_of))]
fn start_of(to: Link) -> &'static str
    ensures { result.now ≡ spec.start_of to }
{
    match to {
        Link::Root => "{\"rel\":\"root\",\"type\":\"application/json\",\"href\":",
        Link::Own => "{\"rel\":\"self\",\"type\":\"application/json\",\"href\":",
        Link::Conformance => "{\"rel\":\"conformance\",\"type\":\"application/json\",\"href\":",
        Link::Data => "{\"rel\":\"data\",\"type\":\"application/json\",\"href\":",
        Link::GetSearch => {
            "{\"rel\":\"search\",\"type\":\"application/geo+json\",\"method\":\"GET\",\"href\":"
        }
        Link::PostSearch => {
            "{\"rel\":\"search\",\"type\":\"application/geo+json\",\"method\":\"POST\",\"href\":"
        }
    }
}

#[tactic(auto, unfolding(crate::specs::Documents::path_of))]
fn path_of(to: Link) -> &'static str
    ensures { result.now ≡ spec.path_of to }
{
    match to {
        Link::Root => "/",
        Link::Own => "/",
        Link::Conformance => "/conformance",
        Link::Data => "/collections",
        Link::GetSearch => "/search",
        Link::PostSearch => "/search",
    }
}

/// Adds a link to a text.
pub fn push_link(alloc: Global, text: &mut String, to: Link, base: &Text) -> Result<(), AllocError>
    ensures { OnOk result (string_bytes text.new ≡ string_bytes text.old ++ spec.link to base.now) }
{
    let mut address = String::from_str(alloc, base.as_str())?;
    address.push_str(path_of(to))?;
    text.push_str(start_of(to))?;
    push_quoted(text, address.as_str())?;
    text.push('}')
}
