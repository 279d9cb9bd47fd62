ghost use Rattle.std.specs.Prelude.{◌≡◌, suc, OnOk, IfOk};
ghost use Rattle.sc_place.specs.Segments.{segments};
ghost use Rattle.sc_place.specs.Endpoints.{EndpointOf, Each, Serves, Keeps, IsTable, Below, number, route_text};

use matchit::{InsertError, Router};
use std::alloc::{AllocError, Global};
use std::marker::Model;

/// What a path leads to, but for the ids in it.
#[derive(Clone, Copy, Debug, PartialEq, Eq)]
pub enum Endpoint {
    Landing,
    Conformance,
    Queryables,
    Search,
    Collections,
    Collection,
    Items,
    Item,
}

/// An endpoint's route, as a router reads it.
fn text_of(endpoint: Endpoint) -> &'static str
    ensures { result.now ≡ route_text endpoint }
{
    match endpoint {
        Endpoint::Landing => "/",
        Endpoint::Conformance => "/conformance",
        Endpoint::Queryables => "/queryables",
        Endpoint::Search => "/search",
        Endpoint::Collections => "/collections",
        Endpoint::Collection => "/collections/{c}",
        Endpoint::Items => "/collections/{c}/items",
        Endpoint::Item => "/collections/{c}/items/{id}",
    }
}

/// Adds an endpoint's route behind those of the endpoints before it.
fn add(router: &mut Router<Endpoint>, endpoint: Endpoint) -> Result<(), AllocError>
    requires each { Each router.old }
    requires below { Below (number endpoint) router.old }
    ensures each { Each router.new }
    ensures keeps { Keeps router.old router.new }
    ensures serves { OnOk result (Serves router.new endpoint) }
    ensures below { Below (suc (number endpoint)) router.new }
{
    // One arm for each fault: only so does each of them know that it isn't want of memory.
    match router.insert(text_of(endpoint), endpoint) {
        Ok(()) => Ok(()),
        Err(InsertError::OutOfMemory) => Err(AllocError),
        Err(InsertError::Conflict { .. }) => unreachable!(),
        Err(InsertError::InvalidParamSegment) => unreachable!(),
        Err(InsertError::InvalidParam) => unreachable!(),
        Err(InsertError::InvalidCatchAll) => unreachable!(),
    }
}

/// A router with each endpoint's route.
fn table(alloc: Global) -> Result<Router<Endpoint>, AllocError>
    ensures { IfOk result (λ router. IsTable router) }
{
    let mut router = Router::new(alloc);
    add(&mut router, Endpoint::Landing)?;
    add(&mut router, Endpoint::Conformance)?;
    add(&mut router, Endpoint::Queryables)?;
    add(&mut router, Endpoint::Search)?;
    add(&mut router, Endpoint::Collections)?;
    add(&mut router, Endpoint::Collection)?;
    add(&mut router, Endpoint::Items)?;
    add(&mut router, Endpoint::Item)?;
    Ok(router)
}

/// The routes of the catalogue. They are built once and asked for each request.
#[derive(Drop)]
pub struct Routes {
    router: Router<Endpoint>,
}

impl Model for Routes {
    ghost use Rattle.matchit.specs.Rows.{RowsOf};
    ghost use Rattle.matchit.specs.Router.{RouteOf};
    ghost use Rattle.sc_place.specs.declared.endpoint.Endpoint.{Endpoint};
    ghost use Rattle.sc_place.specs.Endpoints.{IsTable};

    ghost Value = { RowsOf (RouteOf Endpoint) };

    ghost view = { λ t. t.router };

    ghost invariant = { λ t. IsTable t.router };
}

impl Routes {
    /// The routes.
    pub fn new(alloc: Global) -> Result<Routes, AllocError> {
        Ok(Routes {
            router: table(alloc)?,
        })
    }

    /// The endpoint that a path leads to, or `None` exactly where its segments are those of no endpoint.
    pub(crate) fn endpoint_of(&self, path: &str) -> Option<Endpoint>
        ensures { EndpointOf result (segments path.now) }
    {
        let _bytes = path.as_bytes();
        match self.router.at(path) {
            Ok(found) => Some(*found.value),
            Err(_) => None,
        }
    }
}
