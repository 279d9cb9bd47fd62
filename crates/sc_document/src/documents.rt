ghost use Rattle.std.specs.Prelude.{◌≡◌, ◌++◌, IfOk, OnOk, string_bytes};
ghost use Rattle.sc_document.specs.Documents as spec;

use crate::links::{Link, push_link};
use sc_base::Text;
use std::alloc::{AllocError, Global};

#[tactic(auto, unfolding(crate::specs::Documents::conforms_to))]
fn conforms_to() -> &'static str
    ensures { result.now ≡ spec.conforms_to }
{
    "\"conformsTo\":[\"https://api.stacspec.org/v1.0.0/core\",\"https://api.stacspec.org/v1.0.0/item-search\",\"http://www.opengis.net/spec/cql2/1.0/conf/cql2-text\",\"http://www.opengis.net/spec/cql2/1.0/conf/cql2-json\",\"http://www.opengis.net/spec/cql2/1.0/conf/basic-cql2\"]"
}

#[tactic(auto, unfolding(crate::specs::Documents::landing_start))]
fn landing_start() -> &'static str
    ensures { result.now ≡ spec.landing_start }
{
    "{\"type\":\"Catalog\",\"stac_version\":\"1.0.0\",\"id\":\"stacd\",\"description\":\"Catalogue of scenes\","
}

#[tactic(auto, unfolding(crate::specs::Documents::links_start))]
pub fn links_start() -> &'static str
    ensures { result.now ≡ spec.links_start }
{
    ",\"links\":["
}

#[tactic(auto, unfolding(crate::specs::Documents::links_end))]
pub fn links_end() -> &'static str
    ensures { result.now ≡ spec.links_end }
{
    "]}"
}

#[tactic(auto, unfolding(crate::specs::Documents::queryables))]
fn queryables() -> &'static str
    ensures { result.now ≡ spec.queryables }
{
    "{\"type\":\"object\",\"title\":\"Queryables\",\"properties\":{\"id\":{\"type\":\"string\"},\"collection\":{\"type\":\"string\"},\"datetime\":{\"type\":\"string\"},\"geometry\":{\"type\":\"object\"}},\"additionalProperties\":true}"
}

/// What the catalogue conforms to, as a document (OGC API Features, part 1, section 7.4).
pub fn conformance_text(alloc: Global) -> Result<Text, AllocError>
    ensures { IfOk result (λ text. text ≡ spec.conformance) }
{
    let mut text = String::from_str(alloc, "{")?;
    text.push_str(conforms_to())?;
    text.push('}')?;
    Ok(Text::from_string(text))
}

/// What can be asked of items, as a JSON Schema (OGC API Features, part 3, section 6.2).
pub fn queryables_text(alloc: Global) -> Result<Text, AllocError>
    ensures { IfOk result (λ text. text ≡ spec.queryables) }
{
    Text::from_str(alloc, queryables())
}

/// Adds the landing page's links to a text.
fn push_landing_links(alloc: Global, text: &mut String, base: &Text) -> Result<(), AllocError>
    ensures { OnOk result (string_bytes text.new ≡ string_bytes text.old ++ spec.landing_links base.now) }
{
    push_link(alloc, text, Link::Root, base)?;
    text.push(',')?;
    push_link(alloc, text, Link::Own, base)?;
    text.push(',')?;
    push_link(alloc, text, Link::Conformance, base)?;
    text.push(',')?;
    push_link(alloc, text, Link::Data, base)?;
    text.push(',')?;
    push_link(alloc, text, Link::GetSearch, base)?;
    text.push(',')?;
    push_link(alloc, text, Link::PostSearch, base)
}

/// The landing page (STAC API, Core). The base is the address of the catalogue without a slash at its end.
pub fn landing_text(alloc: Global, base: &Text) -> Result<Text, AllocError>
    ensures { IfOk result (λ text. text ≡ spec.landing base.now) }
{
    let mut text = String::from_str(alloc, landing_start())?;
    text.push_str(conforms_to())?;
    text.push_str(links_start())?;
    push_landing_links(alloc, &mut text, base)?;
    text.push_str(links_end())?;
    Ok(Text::from_string(text))
}
