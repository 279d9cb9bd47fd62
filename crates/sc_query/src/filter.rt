ghost use Rattle.std.specs.Prelude.{◌≡◌, ◌≢◌, Some};
ghost use Rattle.sc_expr.specs.declared.fault.CqlFault.TheVariants as filters;
ghost use Rattle.sc_query.specs.declared.fault.QueryFault.TheVariants.{BadFilter, OutOfMemory};
ghost use Rattle.sc_query.specs.declared.filter.Language.TheVariants as languages;
ghost use Rattle.sc_query.specs.Words as words;
ghost use Rattle.sc_query.specs.Given.{Parameter, in_text, in_tree, text_given};
ghost use Rattle.sc_query.specs.Filters.{language_named, language_given, language_of, crs_named, crs_given, FilterReadsIn, FilterReads};
ghost use Rattle.sc_query.specs.Query.{FilterOf};
ghost use Rattle.sc_query.specs.Reading.{Answers, Optional};
ghost use Rattle.sc_query.specs.Sources.{told, parameters};

use crate::fault::{QueryFault, unspelled};
use crate::given::{Given, Source};
use crate::words::{
    crs_name, filter_name, language_name, longitude_latitude, text_language, tree_language,
};
use sc_base::Text;
use sc_cqljson::read_tree;
use sc_cqltext::read_text;
use sc_expr::{CqlFault, Filter};
use sc_json::{Json, read_json};
use std::alloc::Global;

/// A language that a filter may be in (OGC 21-065r2).
#[derive(Clone, Copy, Debug, PartialEq, Eq)]
pub(crate) enum Language {
    /// CQL2 text.
    Text,
    /// CQL2 JSON.
    Tree,
}

/// The language that a parameter names.
fn language_named(given: Given<'_>) -> Result<Language, QueryFault>
    ensures { result ≡ language_named (text_given (told given.entry)) }
{
    match given.text() {
        Some(word) if word.as_str() == text_language() => Ok(Language::Text),
        Some(word) if word.as_str() == tree_language() => Ok(Language::Tree),
        _ => Err(QueryFault::BadLang),
    }
}

/// The language that is named (STAC API, Filter extension, `filter-lang`).
fn language_given(source: Source<'_>) -> Result<Option<Language>, QueryFault>
    ensures { result ≡ language_given (parameters source.entry words.language_name) }
{
    match source.given(language_name()) {
        Some(given) => Ok(Some(language_named(given)?)),
        None => Ok(None),
    }
}

/// That a parameter names the coordinate system of longitude and latitude.
fn crs_named(given: Given<'_>) -> Result<(), QueryFault>
    ensures { result ≡ crs_named (text_given (told given.entry)) }
{
    match given.text() {
        Some(name) if name.as_str() == longitude_latitude() => Ok(()),
        _ => Err(QueryFault::BadCrs),
    }
}

/// That no other coordinate system is named (STAC API, Filter extension, `filter-crs`).
fn crs_given(source: Source<'_>) -> Result<(), QueryFault>
    ensures { result ≡ crs_given (parameters source.entry words.crs_name) }
{
    match source.given(crs_name()) {
        Some(given) => crs_named(given),
        None => Ok(()),
    }
}

/// The language of a filter.
fn language_of(named: Option<Language>, given: Given<'_>) -> Language
    ensures { result ≡ language_of named (told given.entry) }
{
    match (named, given) {
        (Some(language), _) => language,
        (None, Given::Text(_)) => Language::Text,
        (None, Given::Tree(_)) => Language::Tree,
    }
}

/// The fault of a search whose filter has this one, or want of memory.
fn no_filter(fault: CqlFault) -> QueryFault
    ensures known { result ≢ OutOfMemory → fault ≢ filters.OutOfMemory }
    ensures bad { result ≢ OutOfMemory → result ≡ BadFilter (Some fault) }
{
    match fault {
        CqlFault::OutOfMemory => QueryFault::OutOfMemory,
        fault => QueryFault::BadFilter { fault: Some(fault) },
    }
}

/// The filter that a text is as CQL2 text.
fn of_text(alloc: Global, text: &Text) -> Result<Filter, QueryFault>
    ensures { (given : Parameter) → text_given given ≡ Some text.now → Answers (FilterReadsIn given languages.Text) result }
{
    match read_text(alloc, text.bytes()) {
        Ok(filter) => Ok(filter),
        Err(fault) => Err(no_filter(fault)),
    }
}

/// The filter of CQL2 text, which is a text.
fn of_given_text(alloc: Global, given: Given<'_>) -> Result<Filter, QueryFault>
    ensures { Answers (FilterReadsIn (told given.entry) languages.Text) result }
{
    match given.text() {
        Some(text) => of_text(alloc, text),
        None => Err(QueryFault::BadFilter { fault: None }),
    }
}

/// The filter of a tree of CQL2 JSON.
fn of_tree(alloc: Global, tree: &Json) -> Result<Filter, QueryFault>
    ensures { Answers (FilterReadsIn (in_tree tree.now) languages.Tree) result }
{
    match read_tree(alloc, tree) {
        Ok(filter) => Ok(filter),
        Err(fault) => Err(no_filter(fault)),
    }
}

/// The filter of a text that spells CQL2 JSON.
fn of_spelled(alloc: Global, text: &Text) -> Result<Filter, QueryFault>
    ensures { Answers (FilterReadsIn (in_text text.now) languages.Tree) result }
{
    match read_json(alloc, text.bytes()) {
        Ok(tree) => of_tree(alloc, &tree),
        Err(fault) => Err(unspelled(fault, QueryFault::BadFilter { fault: None })),
    }
}

/// The filter of a language.
fn filter_in(alloc: Global, language: Language, given: Given<'_>) -> Result<Filter, QueryFault>
    ensures { Answers (FilterReadsIn (told given.entry) language) result }
{
    match (language, given) {
        (Language::Text, _) => of_given_text(alloc, given),
        (Language::Tree, Given::Text(text)) => of_spelled(alloc, text),
        (Language::Tree, Given::Tree(tree)) => of_tree(alloc, tree),
    }
}

/// The filter that is given, of the language that is named.
fn filter_given(
    alloc: Global,
    named: Option<Language>,
    source: Source<'_>,
) -> Result<Option<Filter>, QueryFault>
    ensures { Answers (Optional (FilterReads named) (parameters source.entry words.filter_name)) result }
{
    let Some(given) = source.given(filter_name()) else {
        return Ok(None);
    };
    let language = language_of(named, given);
    Ok(Some(filter_in(alloc, language, given)?))
}

/// The filter of a search (STAC API, Filter extension), behind its language and its coordinate system.
pub(crate) fn filter_of(alloc: Global, source: Source<'_>) -> Result<Option<Filter>, QueryFault>
    ensures { Answers (FilterOf (parameters source.entry)) result }
{
    let named = language_given(source)?;
    crs_given(source)?;
    filter_given(alloc, named, source)
}
