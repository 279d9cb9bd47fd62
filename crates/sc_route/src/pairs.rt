ghost use Rattle.std.specs.Prelude.{◌≡◌, nat_eq, find, IfOk, IsUtf8};
ghost use Rattle.std.specs.Option.{option_copied};
ghost use Rattle.std.specs.Cmp.Lexicographic.{pointwise};
ghost use Rattle.form_urlencoded.specs.Form.{raw_pairs};
ghost use Rattle.sc_place.specs.Segments as segments;
ghost use Rattle.sc_route.specs.Pairs as spec;

use form_urlencoded::parse;
use sc_base::{Seq, Text};
use sc_expr::Pair;
use sc_place::{path_of, query_of};
use std::alloc::{AllocError, Global};

#[tactic(auto, unfolding(crate::specs::Pairs::upsert_name))]
fn upsert_name() -> &'static str
    ensures { result.now ≡ spec.upsert_name }
{
    "upsert"
}

#[tactic(auto, unfolding(crate::specs::Pairs::true_word))]
fn true_word() -> &'static str
    ensures { result.now ≡ spec.true_word }
{
    "true"
}

/// A pair of copies.
fn pair_of(alloc: Global, name: &str, value: &str) -> Result<Pair, AllocError>
    ensures name { IfOk result (λ pair. pair.name ≡ name.now) }
    ensures value { IfOk result (λ pair. pair.value ≡ value.now) }
{
    let name = Text::from_str(alloc, name)?;
    let value = Text::from_str(alloc, value)?;
    Ok(Pair { name, value })
}

/// The pairs of a query, decoded.
fn decoded(alloc: Global, query: &[u8]) -> Result<Vec<Pair>, AllocError>
    ensures { IfOk result (λ pairs. spec.DecodeTo (raw_pairs query.now) pairs.items) }
{
    let mut pairs = Vec::new(alloc);
    for item in parse(alloc, query) {
        let (name, value) = item?;
        pairs.push(pair_of(alloc, name.as_str(), value.as_str())?)?;
    }
    Ok(pairs)
}

/// The text of a target.
fn target_text(target: &[u8]) -> &str
    requires { IsUtf8 target.now }
    ensures { result.now ≡ target.now }
{
    match str::from_utf8(target) {
        Ok(text) => text,
        Err(_) => unreachable!(),
    }
}

/// The pairs of a target's query.
pub fn pairs_of(alloc: Global, target: &[u8]) -> Result<Seq<Pair>, AllocError>
    requires { IsUtf8 target.now }
    ensures { IfOk result (spec.HasPairs target.now) }
{
    let query = query_of(target_text(target));
    let pairs = decoded(alloc, query.as_bytes())?;
    Ok(Seq::of(pairs))
}

/// A copy of a target's path.
pub fn path_text(alloc: Global, target: &[u8]) -> Result<Text, AllocError>
    requires { IsUtf8 target.now }
    ensures { IfOk result (λ path. path ≡ segments.path_of target.now) }
{
    Text::from_str(alloc, path_of(target_text(target)))
}

/// The first pair of a name.
fn pair_named<'a>(pairs: &'a [Pair], name: &str) -> Option<&'a Pair>
    ensures { option_copied result ≡ find (λ pair. pointwise nat_eq pair.name name.now) pairs.now }
{
    pairs.iter().find(|pair| pair.name.as_str() == name)
}

/// Whether there is a pair, and its value is `true`.
fn is_true(found: Option<&Pair>) -> bool
    ensures { result ≡ spec.is_true (option_copied found.entry) }
{
    match found {
        Some(pair) => pair.value.as_str() == true_word(),
        None => false,
    }
}

/// Whether the first pair that is named `upsert` has the value `true`.
pub fn says_upsert(pairs: &[Pair]) -> bool
    ensures { result ≡ spec.says_upsert pairs.now }
{
    is_true(pair_named(pairs, upsert_name()))
}
