ghost use Rattle.std.specs.Prelude.{◌≡◌, MatchResult};
ghost use Rattle.sc_http.specs.Headers.{length_name};
ghost use Rattle.sc_route.specs.Bodies.{HasBody, IsBodyFault};

use sc_http::{Request, find_header};
use sc_json::{Json, read_json};
use sc_refusal::RouteFault;
use std::alloc::Global;

#[tactic(auto, unfolding(sc_http::specs::Headers::length_name))]
fn length_name() -> &'static [u8]
    ensures { result.now ≡ length_name }
{
    b"content-length"
}

/// The tree that a request's body spells.
pub fn body_tree(alloc: Global, request: &Request) -> Result<Json, RouteFault>
    ensures { MatchResult result (HasBody request.now) (IsBodyFault request.now) }
{
    let Some(_) = find_header(length_name(), request.headers.as_slice()) else {
        return Err(RouteFault::NoLength);
    };
    let tree = read_json(alloc, request.body.as_slice())?;
    Ok(tree)
}
