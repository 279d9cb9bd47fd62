//! The links of a page, as texts.
ghost use Rattle.std.specs.Prelude.{◌≡◌, ◌++◌, [], IfOk, OnOk, string_bytes};
ghost use Rattle.std.specs.Option.{option_copied};
ghost use Rattle.form_urlencoded.specs.Form.{extend_pairs};
ghost use Rattle.sc_page.specs.Linked.{token_name, root_start, get_start, post_start, search_path, body_start, body_end, is_other_pair, other_pairs, next_pairs, next_address, root_link, get_link, post_link, links_text};

use crate::links::Links;
use form_urlencoded::Serializer;
use sc_base::Text;
use sc_expr::Pair;
use sc_json::push_quoted;
use sc_sort::KeyList;
use sc_token::write_token;
use std::alloc::{AllocError, Global};

#[tactic(auto, unfolding(crate::specs::Linked::token_name))]
fn token_name() -> &'static str
    ensures { result.now ≡ token_name }
{
    "token"
}

#[tactic(auto, unfolding(crate::specs::Linked::root_start))]
fn root_start() -> &'static str
    ensures { result.now ≡ root_start }
{
    "{\"rel\":\"root\",\"type\":\"application/json\",\"href\":"
}

#[tactic(auto, unfolding(crate::specs::Linked::get_start))]
fn get_start() -> &'static str
    ensures { result.now ≡ get_start }
{
    ",{\"rel\":\"next\",\"type\":\"application/geo+json\",\"method\":\"GET\",\"href\":"
}

#[tactic(auto, unfolding(crate::specs::Linked::post_start))]
fn post_start() -> &'static str
    ensures { result.now ≡ post_start }
{
    ",{\"rel\":\"next\",\"type\":\"application/geo+json\",\"method\":\"POST\",\"href\":"
}

#[tactic(auto, unfolding(crate::specs::Linked::search_path))]
fn search_path() -> &'static str
    ensures { result.now ≡ search_path }
{
    "/search"
}

#[tactic(auto, unfolding(crate::specs::Linked::body_start))]
fn body_start() -> &'static str
    ensures { result.now ≡ body_start }
{
    ",\"body\":{\"token\":"
}

#[tactic(auto, unfolding(crate::specs::Linked::body_end))]
fn body_end() -> &'static str
    ensures { result.now ≡ body_end }
{
    "},\"merge\":true}"
}

/// Adds the link to the start of the catalogue.
fn push_root(alloc: Global, out: &mut String, base: &Text) -> Result<(), AllocError>
    ensures { OnOk result (string_bytes out.new ≡ string_bytes out.old ++ root_link base.now) }
{
    let mut address = String::from_str(alloc, base.as_str())?;
    address.push('/')?;
    out.push_str(root_start())?;
    push_quoted(out, address.as_str())?;
    out.push('}')
}

/// Whether a pair has another name than `token`.
fn is_other_pair(pair: &Pair) -> bool
    ensures { result ≡ is_other_pair pair.now }
{
    pair.name.as_str() != token_name()
}

/// The pairs but those of the name `token`, serialized as a form.
fn form_of_others(alloc: Global, pairs: &[Pair]) -> Result<Serializer, AllocError>
    ensures { IfOk result (λ form. form ≡ record { prefix = []; form = extend_pairs [] (other_pairs pairs.now) }) }
{
    let mut form = Serializer::new(String::new(alloc));
    for pair in pairs {
        if is_other_pair(pair) {
            form.append_pair(pair.name.as_str(), pair.value.as_str())?;
        }
    }
    Ok(form)
}

/// The pairs of the next request, serialized as a form.
fn form_of_next(alloc: Global, pairs: &[Pair], token: &str) -> Result<String, AllocError>
    ensures { IfOk result (λ form. string_bytes form ≡ extend_pairs [] (next_pairs pairs.now token.now)) }
{
    let mut form = form_of_others(alloc, pairs)?;
    form.append_pair(token_name(), token)?;
    Ok(form.finish())
}

/// The address of the next request.
fn next_address(
    alloc: Global,
    base: &Text,
    path: &Text,
    pairs: &[Pair],
    token: &Text,
) -> Result<String, AllocError>
    ensures { IfOk result (λ address. string_bytes address ≡ next_address base.now path.now pairs.now token.now) }
{
    let form = form_of_next(alloc, pairs, token.as_str())?;
    let mut address = String::from_str(alloc, base.as_str())?;
    address.push_str(path.as_str())?;
    address.push('?')?;
    address.push_str(form.as_str())?;
    Ok(address)
}

/// Adds the link to the next page with GET, where there is one.
fn push_get(
    alloc: Global,
    out: &mut String,
    base: &Text,
    path: &Text,
    pairs: &[Pair],
    next: Option<&KeyList>,
) -> Result<(), AllocError>
    ensures { OnOk result (string_bytes out.new ≡ string_bytes out.old ++ get_link base.now path.now pairs.now (option_copied next.entry)) }
{
    let Some(key) = next else {
        return Ok(());
    };
    let token = write_token(alloc, key)?;
    let address = next_address(alloc, base, path, pairs, &token)?;
    out.push_str(get_start())?;
    push_quoted(out, address.as_str())?;
    out.push('}')
}

/// Adds the link to the next page with POST, where there is one.
fn push_post(
    alloc: Global,
    out: &mut String,
    base: &Text,
    next: Option<&KeyList>,
) -> Result<(), AllocError>
    ensures { OnOk result (string_bytes out.new ≡ string_bytes out.old ++ post_link base.now (option_copied next.entry)) }
{
    let Some(key) = next else {
        return Ok(());
    };
    let token = write_token(alloc, key)?;
    let mut address = String::from_str(alloc, base.as_str())?;
    address.push_str(search_path())?;
    out.push_str(post_start())?;
    push_quoted(out, address.as_str())?;
    out.push_str(body_start())?;
    push_quoted(out, token.as_str())?;
    out.push_str(body_end())
}

/// Adds the links of a page.
#[tactic(auto, unfolding(crate::specs::Linked::links_text))]
pub(crate) fn push_links(
    alloc: Global,
    out: &mut String,
    links: &Links,
    next: Option<&KeyList>,
) -> Result<(), AllocError>
    ensures { OnOk result (string_bytes out.new ≡ string_bytes out.old ++ links_text links.now (option_copied next.entry)) }
{
    match links {
        Links::Bare => Ok(()),
        Links::Get { base, path, pairs } => {
            push_root(alloc, out, base)?;
            push_get(alloc, out, base, path, pairs.as_slice(), next)
        }
        Links::Post { base } => {
            push_root(alloc, out, base)?;
            push_post(alloc, out, base, next)
        }
    }
}
