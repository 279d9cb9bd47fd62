ghost use Rattle.std.specs.Prelude.{IsUtf8, MatchResult};
ghost use Rattle.sc_place.specs.declared.operation.Operation.TheVariants as asks;
ghost use Rattle.sc_route.specs.Jobs.{Does, Fails};

use crate::body::body_tree;
use crate::job::Work;
use crate::pairs::{pairs_of, path_text};
use sc_base::Text;
use sc_http::Request;
use sc_page::Links;
use sc_query::{of_get, of_get_within, of_post};
use sc_refusal::RouteFault;
use std::alloc::Global;

/// The search that stands in the target's query.
pub fn search_of_pairs(alloc: Global, base: &Text, request: &Request) -> Result<Work, RouteFault>
    requires { IsUtf8 request.now.target }
    ensures { MatchResult result (Does base.now request.now asks.GetSearch) (Fails request.now asks.GetSearch) }
{
    let target = request.target.as_slice();
    let pairs = pairs_of(alloc, target)?;
    let query = of_get(alloc, pairs.as_slice())?;
    let base = base.try_clone(alloc)?;
    let path = path_text(alloc, target)?;
    let links = Links::Get { base, path, pairs };
    Ok(Work::Search {
        within: None,
        query,
        links,
    })
}

/// The search within a collection that stands in the target's query.
pub fn search_within(
    alloc: Global,
    base: &Text,
    collection: Text,
    request: &Request,
) -> Result<Work, RouteFault>
    requires { IsUtf8 request.now.target }
    ensures { MatchResult result
        (Does base.now request.now (asks.SearchWithin collection))
        (Fails request.now (asks.SearchWithin collection)) }
{
    let target = request.target.as_slice();
    let pairs = pairs_of(alloc, target)?;
    let query = of_get_within(alloc, &collection, pairs.as_slice())?;
    let base = base.try_clone(alloc)?;
    let path = path_text(alloc, target)?;
    let links = Links::Get { base, path, pairs };
    Ok(Work::Search {
        within: Some(collection),
        query,
        links,
    })
}

/// The search that stands in the body.
pub fn search_of_body(alloc: Global, base: &Text, request: &Request) -> Result<Work, RouteFault>
    ensures { MatchResult result (Does base.now request.now asks.PostSearch) (Fails request.now asks.PostSearch) }
{
    let tree = body_tree(alloc, request)?;
    let query = of_post(alloc, &tree)?;
    let base = base.try_clone(alloc)?;
    Ok(Work::Search {
        within: None,
        query,
        links: Links::Post { base },
    })
}
