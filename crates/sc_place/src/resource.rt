ghost use Rattle.std.specs.Prelude.{ℕ, List, IfOk, MatchOption};
ghost use Rattle.sc_place.specs.Segments.{segments, Writes};
ghost use Rattle.sc_place.specs.Resources.{HasSegments, ResourceOf};
ghost use Rattle.sc_place.specs.Endpoints.{IsEndpoint};
ghost use Rattle.sc_place.specs.declared.resource.Resource.{Resource as AResource};

use crate::endpoint::{Endpoint, Routes};
use crate::target::{path_of, segment};
use percent_encoding::percent_decode;
use sc_base::Text;
use std::alloc::{AllocError, Global};

/// What a target leads to.
#[derive(Debug, Drop)]
pub enum Resource {
    Landing,
    Conformance,
    Queryables,
    Search,
    Collections,
    Collection { id: Text },
    Items { collection: Text },
    Item { collection: Text, id: Text },
}

/// The text that a segment writes, or `None` exactly where it writes none.
fn written_in(alloc: Global, segment: &[u8]) -> Result<Option<Text>, AllocError>
    ensures { IfOk result (λ found. MatchOption found ((text : List ℕ) → ¬ (Writes segment.now text)) (Writes segment.now)) }
{
    if segment.is_empty() {
        return Ok(None);
    }
    let mut bytes = Vec::with_capacity(alloc, segment.len())?;
    percent_decode(segment).append_to(&mut bytes)?;
    Ok(Text::of_vec(bytes))
}

/// The resource that a path to an endpoint leads to, or `None` exactly where an id in it can't be read.
fn resource_at(
    alloc: Global,
    endpoint: Endpoint,
    path: &[u8],
) -> Result<Option<Resource>, AllocError>
    requires { IsEndpoint endpoint (segments path.now) }
    ensures { IfOk result (λ found. MatchOption found
        ((r : AResource) → ¬ (HasSegments r (segments path.now)))
        (λ r. HasSegments r (segments path.now))) }
{
    match endpoint {
        Endpoint::Landing => Ok(Some(Resource::Landing)),
        Endpoint::Conformance => Ok(Some(Resource::Conformance)),
        Endpoint::Queryables => Ok(Some(Resource::Queryables)),
        Endpoint::Search => Ok(Some(Resource::Search)),
        Endpoint::Collections => Ok(Some(Resource::Collections)),
        Endpoint::Collection => {
            let Some(id) = written_in(alloc, segment(path, 2))? else {
                return Ok(None);
            };
            Ok(Some(Resource::Collection { id }))
        }
        Endpoint::Items => {
            let Some(collection) = written_in(alloc, segment(path, 2))? else {
                return Ok(None);
            };
            Ok(Some(Resource::Items { collection }))
        }
        Endpoint::Item => {
            let Some(collection) = written_in(alloc, segment(path, 2))? else {
                return Ok(None);
            };
            let Some(id) = written_in(alloc, segment(path, 4))? else {
                return Ok(None);
            };
            Ok(Some(Resource::Item { collection, id }))
        }
    }
}

/// The resource that a target leads to, or `None` exactly where it leads nowhere.
pub fn resource_of(
    alloc: Global,
    routes: &Routes,
    target: &[u8],
) -> Result<Option<Resource>, AllocError>
    ensures { IfOk result (ResourceOf target.now) }
{
    let Ok(target) = str::from_utf8(target) else {
        return Ok(None);
    };
    let path = path_of(target);
    match routes.endpoint_of(path) {
        Some(endpoint) => resource_at(alloc, endpoint, path.as_bytes()),
        None => Ok(None),
    }
}
