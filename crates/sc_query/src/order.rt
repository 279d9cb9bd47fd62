ghost use Rattle.std.specs.Prelude.{◌≡◌, ◌≢◌, length, Some, IfOk, IfSome};
ghost use Rattle.sc_token.specs.declared.fault.TokenFault.TheVariants as tokens;
ghost use Rattle.sc_query.specs.declared.fault.QueryFault.TheVariants.{BadToken, OutOfMemory};
ghost use Rattle.sc_query.specs.Words as words;
ghost use Rattle.sc_query.specs.Given.{Parameter, text_given};
ghost use Rattle.sc_query.specs.Order.{sort_given, TokenReads};
ghost use Rattle.sc_query.specs.Reading.{Answers, Optional};
ghost use Rattle.sc_query.specs.Query.{Is};
ghost use Rattle.sc_query.specs.Sources.{told, parameters};

use crate::fault::QueryFault;
use crate::given::{Given, Source};
use crate::words::{sort_name, token_name};
use sc_base::Text;
use sc_sort::{KeyList, SortFault, SortSpec, default_sort, read_sort_text, read_sort_tree};
use sc_token::{TokenFault, read_token};
use std::alloc::Global;

/// The sort that is given, as a text or as a list.
fn sort_in(alloc: Global, given: Given<'_>) -> Result<SortSpec, QueryFault>
    ensures { Answers (Is (sort_given (Some (told given.entry)))) result }
{
    let sort = match given {
        Given::Text(text) => read_sort_text(alloc, text),
        Given::Tree(tree) => read_sort_tree(alloc, tree),
    };
    match sort {
        Ok(sort) => Ok(sort),
        Err(SortFault::OutOfMemory) => Err(QueryFault::OutOfMemory),
        Err(fault) => Err(QueryFault::BadSort { fault }),
    }
}

/// The sort of a search (STAC API, Sort extension, `sortby`).
pub(crate) fn sort_of(alloc: Global, source: Source<'_>) -> Result<SortSpec, QueryFault>
    ensures { Answers (Is (sort_given (parameters source.entry words.sort_name))) result }
{
    match source.given(sort_name()) {
        Some(given) => sort_in(alloc, given),
        None => Ok(default_sort(alloc)?),
    }
}

/// The fault of a search whose token has this one, or want of memory.
fn no_place(fault: TokenFault) -> QueryFault
    ensures known { result ≢ OutOfMemory → fault ≢ tokens.OutOfMemory }
    ensures bad { result ≢ OutOfMemory → result ≡ BadToken fault }
{
    match fault {
        TokenFault::OutOfMemory => QueryFault::OutOfMemory,
        fault => QueryFault::BadToken { fault },
    }
}

/// The place whose token a text is.
fn place_in(alloc: Global, sort: &SortSpec, text: &Text) -> Result<KeyList, QueryFault>
    ensures place { (given : Parameter) → text_given given ≡ Some text.now → Answers (TokenReads sort.now given) result }
    ensures fits { IfOk result (λ place. length place.values ≡ length sort.now) }
{
    match read_token(alloc, sort, text.bytes()) {
        Ok(place) => Ok(place),
        Err(fault) => Err(no_place(fault)),
    }
}

/// The place whose token is given, which is a text.
fn place_given(alloc: Global, sort: &SortSpec, given: Given<'_>) -> Result<KeyList, QueryFault>
    ensures place { Answers (TokenReads sort.now (told given.entry)) result }
    ensures fits { IfOk result (λ place. length place.values ≡ length sort.now) }
{
    match given.text() {
        Some(text) => place_in(alloc, sort, text),
        None => Err(QueryFault::BadToken {
            fault: TokenFault::WrongKind,
        }),
    }
}

/// The place behind which a search goes on, by its token under this sort.
pub(crate) fn place_of(
    alloc: Global,
    sort: &SortSpec,
    source: Source<'_>,
) -> Result<Option<KeyList>, QueryFault>
    ensures place { Answers (Optional (TokenReads sort.now) (parameters source.entry words.token_name)) result }
    ensures fits { IfOk result (λ found. IfSome found (λ place. length place.values ≡ length sort.now)) }
{
    match source.given(token_name()) {
        Some(given) => Ok(Some(place_given(alloc, sort, given)?)),
        None => Ok(None),
    }
}
