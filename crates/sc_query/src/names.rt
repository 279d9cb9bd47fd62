ghost use Rattle.std.specs.Prelude.{◌≡◌, ◌∷◌, ◌<◌, [], length, Ok, Some, IfOk, IfSome, MatchOption};
ghost use Rattle.std.specs.Option.{option_map, option_copied};
ghost use Rattle.std.specs.List.{list_any};
ghost use Rattle.sc_base.specs.Parts.{parts_between};
ghost use Rattle.sc_json.specs.Views.{text_of};
ghost use Rattle.sc_geom.specs.Drawn.{all_read};
ghost use Rattle.sc_query.specs.Words as words;
ghost use Rattle.sc_query.specs.Names.{texts_given, is_empty, names_of, names_given, collections_within};
ghost use Rattle.sc_query.specs.Reading.{Answers};
ghost use Rattle.sc_query.specs.Query.{Is};
ghost use Rattle.sc_query.specs.Sources.{told, all_told, parameters};

use crate::fault::QueryFault;
use crate::given::{Given, Source};
use crate::words::{collections_name, ids_name};
use sc_base::{Seq, Text};
use sc_json::Json;
use std::alloc::{AllocError, Global};

/// The most names in a list.
const MOST: usize = 10_000;

/// The first part of a text between commas, and what stands behind its comma; none where there is no comma.
fn first_part(text: &str) -> (&str, Option<&str>)
    ensures parts { MatchOption result.1
        (parts_between 44 text.now ≡ result.0.now ∷ [])
        (λ rest. parts_between 44 text.now ≡ result.0.now ∷ parts_between 44 rest.now) }
    ensures shorter { IfSome result.1 (λ rest. length rest.now < length text.now) }
{
    match text.split_once(',') {
        Some((part, rest)) => (part, Some(rest)),
        None => (text, None),
    }
}

/// The texts of a text between commas.
fn texts_in_text(alloc: Global, text: &str) -> Result<Vec<Text>, AllocError>
    ensures { IfOk result (λ texts. texts.items ≡ parts_between 44 text.now) }
{
    let mut texts = Vec::new(alloc);
    let mut left = Some(text);
    while let Some(text) = left {
        let (part, rest) = first_part(text);
        texts.push(Text::from_str(alloc, part)?)?;
        left = rest;
    }
    Ok(texts)
}

/// The texts that values are; none where one of them is none.
fn texts_in(alloc: Global, values: &[Json]) -> Result<Option<Vec<Text>>, AllocError>
    ensures { IfOk result (λ found. option_map (λ texts. texts.items) found ≡ all_read text_of values.now) }
{
    let mut texts = Vec::with_capacity(alloc, values.len())?;
    for value in values {
        match value.as_text() {
            Some(text) => texts.push(text.try_clone(alloc)?)?,
            None => return Ok(None),
        }
    }
    Ok(Some(texts))
}

/// The texts that are given, between commas or in a list.
fn texts_given(alloc: Global, given: Given<'_>) -> Result<Option<Vec<Text>>, AllocError>
    ensures { IfOk result (λ found. option_map (λ texts. texts.items) found ≡ texts_given (told given.entry)) }
{
    match given {
        Given::Text(text) => Ok(Some(texts_in_text(alloc, text.as_str())?)),
        Given::Tree(tree) => match tree.as_list() {
            Some(values) => texts_in(alloc, values),
            None => Ok(None),
        },
    }
}

/// Whether a text is empty.
fn has_empty(texts: &[Text]) -> bool
    ensures { result ≡ list_any is_empty texts.now }
{
    texts.iter().any(|text| text.is_empty())
}

/// The names that texts are.
fn names_of(fault: QueryFault, texts: Vec<Text>) -> Result<Option<Seq<Text>>, QueryFault>
    ensures { result ≡ names_of fault (Some texts.items) }
{
    if has_empty(texts.as_slice()) || texts.len() > MOST {
        Err(fault)
    } else if texts.is_empty() {
        Ok(None)
    } else {
        Ok(Some(Seq::of(texts)))
    }
}

/// The names that are given, or this fault.
fn names_given(
    alloc: Global,
    fault: QueryFault,
    given: Option<Given<'_>>,
) -> Result<Option<Seq<Text>>, QueryFault>
    ensures { Answers (Is (names_given fault (all_told given.entry))) result }
{
    let Some(given) = given else {
        return Ok(None);
    };
    match texts_given(alloc, given)? {
        Some(texts) => names_of(fault, texts),
        None => Err(fault),
    }
}

/// The ids of a search (STAC API, Item Search, `ids`).
pub(crate) fn ids_of(alloc: Global, source: Source<'_>) -> Result<Option<Seq<Text>>, QueryFault>
    ensures { Answers (Is (names_given QueryFault.BadIds (parameters source.entry words.ids_name))) result }
{
    names_given(alloc, QueryFault::BadIds, source.given(ids_name()))
}

/// This collection alone.
fn only(alloc: Global, collection: &Text) -> Result<Seq<Text>, AllocError>
    ensures { IfOk result (λ names. names ≡ collection.now ∷ []) }
{
    let mut names = Vec::with_capacity(alloc, 1)?;
    names.push(collection.try_clone(alloc)?)?;
    Ok(Seq::of(names))
}

/// The collections of a search (STAC API, Item Search, `collections`), within one or not.
pub(crate) fn collections_of(
    alloc: Global,
    within: Option<&Text>,
    source: Source<'_>,
) -> Result<Option<Seq<Text>>, QueryFault>
    ensures { Answers (Is (collections_within (option_copied within.entry) (parameters source.entry words.collections_name))) result }
{
    match within {
        Some(collection) => Ok(Some(only(alloc, collection)?)),
        None => names_given(
            alloc,
            QueryFault::BadCollections,
            source.given(collections_name()),
        ),
    }
}
