//! What follows from the definitions alone. Each function's clause is the law: its body is empty, or cites other laws.
ghost use Rattle.std.specs.Prelude.{◌≡◌, ℕ, ◌+◌, ◌≤◌, true, All, Contains, List, [], length, filter, Option, Some, Result, Ok};
ghost use Rattle.form_urlencoded.specs.Form.{extend_pairs, parse};
ghost use Rattle.sc_json.specs.declared.tree.Json.{Json};
ghost use Rattle.sc_json.specs.declared.tree.Member.{Member};
ghost use Rattle.sc_json.specs.Views.{object_of};
ghost use Rattle.sc_item.specs.Feature.{Feature};
ghost use Rattle.sc_item.specs.Names.{AreApart};
ghost use Rattle.sc_sort.specs.Keys.{Keys, AreKept};
ghost use Rattle.sc_token.specs.Token.{token_of};
ghost use Rattle.sc_token.specs.Fits.{FitsSort};
ghost use Rattle.sc_expr.specs.declared.select.Pair.{Pair};
ghost use Rattle.sc_expr.specs.Query.{Asked};
ghost use Rattle.sc_history.specs.Part.{Part};
ghost use Rattle.sc_page.specs.Linked.{next_pairs};
ghost use Rattle.sc_page.specs.Search.{is_asked, IsPage};
ghost use Rattle.sc_query.specs.declared.fault.QueryFault.{QueryFault};
ghost use Rattle.sc_query.specs.Given.{Parameters, of_pairs};
ghost use Rattle.sc_query.specs.Query.{QueryOf, QueryOfBody};
ghost use Rattle.sc_chain.specs.Chain.{behind, IsAll, IsPageOf, IsChain, joined};
ghost use Rattle.sc_walk.specs.Walk.{is_candidate, is_opened};
ghost use Rattle.sc_chain.specs.Chunks.{AreChunks, IsCovered, IsOpenedByChunks};
ghost use Rattle.sc_chain.specs.Next.{next_request, IsNextBody, HasShortName, IsInUtf8, PairsFollowed, BodiesFollowed};

use sc_cqlread::laws::one_answer;

/// The pages of a query followed by `next`, over items in whatever order they are kept for each page, join to all items
/// that are asked for: each once, in order, without gaps. There is one such list, and where no two items have one name,
/// no two on the pages do.
pub fn pages_join()
    ensures all { (items : List Feature) (asked : Asked) (pages : List (List Feature)) → 1 ≤ asked.limit → IsChain items asked pages → IsAll asked items (joined pages) }
    ensures only { (items : List Feature) (asked : Asked) (pages : List (List Feature)) (all : List Feature) → 1 ≤ asked.limit → IsChain items asked pages → IsAll asked items all → joined pages ≡ all }
    ensures apart { (items : List Feature) (asked : Asked) (pages : List (List Feature)) → 1 ≤ asked.limit → IsChain items asked pages → AreApart items → AreApart (joined pages) }
{}

/// Following `next` ends: behind a page that has a next as many items fewer are asked for as the limit says, and so the
/// pages are at most one more than the items that are asked for.
pub fn pages_end()
    ensures fewer { (items : List Feature) (asked : Asked) (page : List Feature) (place : Keys) → 1 ≤ asked.limit → IsPageOf asked items page (Some place) →
        length (filter (is_asked (behind asked place)) items) + asked.limit ≡ length (filter (is_asked asked) items) }
    ensures few { (items : List Feature) (asked : Asked) (pages : List (List Feature)) → 1 ≤ asked.limit → IsChain items asked pages → length pages ≤ length (filter (is_asked asked) items) + 1 }
{}

/// Items of which no two have one name have pages that follow one another to the end, for every query.
pub fn pages_are_there()
    ensures { (items : List Feature) (asked : Asked) → 1 ≤ asked.limit → AreApart items → (pages : List (List Feature)) × IsChain items asked pages }
{}

/// Parameters that are a query are no other, and have no fault.
pub fn one_query()
    ensures { (within : Option (List ℕ)) (given : Parameters) (asked : Asked) (answer : Result Asked QueryFault) → QueryOf within given (Ok asked) → QueryOf within given answer → answer ≡ Ok asked }
{
    one_answer();
}

/// The place that a page gives as the next fits the query's sort, where the items' collections and ids have 1 to 256
/// bytes. The condition on the place is what every key list keeps.
pub fn places_fit()
    ensures { (asked : Asked) (items page : List Feature) (place : Keys) → IsPage asked items page (Some place) → All HasShortName items → AreKept place → FitsSort asked.sort place }
{}

/// The pairs of a next page's address are the query that the request's pairs are, behind the place, within one collection
/// or not: that is read of them, and nothing else.
pub fn next_pairs_ask_behind()
    ensures reads { (within : Option (List ℕ)) (pairs : List Pair) (asked : Asked) (place : Keys) → QueryOf within (of_pairs pairs) (Ok asked) → FitsSort asked.sort place →
        QueryOf within (of_pairs (next_request pairs place)) (Ok (behind asked place)) }
    ensures only { (within : Option (List ℕ)) (pairs : List Pair) (asked : Asked) (place : Keys) (answer : Result Asked QueryFault) → QueryOf within (of_pairs pairs) (Ok asked) → FitsSort asked.sort place →
        QueryOf within (of_pairs (next_request pairs place)) answer → answer ≡ Ok (behind asked place) }
{
    one_query();
}

/// The form that stands behind the question mark of such an address is read as these pairs (URL Standard §5.1). The
/// condition on the pairs is what every pair keeps.
pub fn next_addresses_are_read()
    ensures { (pairs : List Pair) (place : Keys) → All IsInUtf8 pairs → parse (extend_pairs [] (next_pairs pairs (token_of place))) ≡ next_pairs pairs (token_of place) }
{}

/// A request's body with the token of the place merged into it is the query that the body is, behind the place.
pub fn next_bodies_ask_behind()
    ensures reads { (body next : Json) (asked : Asked) (place : Keys) → QueryOfBody body (Ok asked) → FitsSort asked.sort place → IsNextBody body place next →
        QueryOfBody next (Ok (behind asked place)) }
    ensures only { (body next : Json) (asked : Asked) (place : Keys) (answer : Result Asked QueryFault) → QueryOfBody body (Ok asked) → FitsSort asked.sort place → IsNextBody body place next →
        QueryOfBody next answer → answer ≡ Ok (behind asked place) }
{
    one_query();
}

/// A body that is an object has a next one.
pub fn next_bodies_are_there()
    ensures { (body : Json) (place : Keys) (members : List Member) → object_of body ≡ Some members → (next : Json) × IsNextBody body place next }
{}

/// The pages of a search's pairs, and of the pairs of the addresses that their links have, are those of its query followed
/// by `next`. So they join to all items that it asks for, and are at most one more than these: a query's limit is from 1.
pub fn requests_join()
    ensures chain { (within : Option (List ℕ)) (items : List Feature) (pairs : List Pair) (asked : Asked) (pages : List (List Feature)) → All HasShortName items →
        QueryOf within (of_pairs pairs) (Ok asked) → PairsFollowed within items pairs pages → IsChain items asked pages }
    ensures all { (within : Option (List ℕ)) (items : List Feature) (pairs : List Pair) (asked : Asked) (pages : List (List Feature)) → All HasShortName items →
        QueryOf within (of_pairs pairs) (Ok asked) → PairsFollowed within items pairs pages → IsAll asked items (joined pages) }
    ensures few { (within : Option (List ℕ)) (items : List Feature) (pairs : List Pair) (asked : Asked) (pages : List (List Feature)) → All HasShortName items →
        QueryOf within (of_pairs pairs) (Ok asked) → PairsFollowed within items pairs pages → length pages ≤ length (filter (is_asked asked) items) + 1 }
{
    one_query();
}

/// So are the pages of a search's body, and of the bodies that their links make of it.
pub fn bodies_join()
    ensures chain { (items : List Feature) (body : Json) (asked : Asked) (pages : List (List Feature)) → All HasShortName items →
        QueryOfBody body (Ok asked) → BodiesFollowed items body pages → IsChain items asked pages }
    ensures all { (items : List Feature) (body : Json) (asked : Asked) (pages : List (List Feature)) → All HasShortName items →
        QueryOfBody body (Ok asked) → BodiesFollowed items body pages → IsAll asked items (joined pages) }
    ensures few { (items : List Feature) (body : Json) (asked : Asked) (pages : List (List Feature)) → All HasShortName items →
        QueryOfBody body (Ok asked) → BodiesFollowed items body pages → length pages ≤ length (filter (is_asked asked) items) + 1 }
{
    one_query();
}

/// What a search opens lies within what the older, wider rule of the walk opens: for parts whose bounds cover their items,
/// every part that is opened stands in a chunk of candidates that this rule opens too. The candidates have such chunks.
pub fn opened_within_chunks()
    ensures within { (asked : Asked) (parts : List Part) (chunks : List (List Part)) (part : Part) → All IsCovered parts → AreChunks asked.sort (filter (is_candidate asked) parts) chunks → Contains parts part →
        is_opened asked parts part ≡ true → IsOpenedByChunks asked chunks part }
    ensures chunks { (asked : Asked) (parts : List Part) → All IsCovered parts → (chunks : List (List Part)) × AreChunks asked.sort (filter (is_candidate asked) parts) chunks }
{}
