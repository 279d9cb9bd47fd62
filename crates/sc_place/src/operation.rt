ghost use Rattle.std.specs.Prelude.{◌≡◌};
ghost use Rattle.sc_place.specs.Operations.{OperationOf, operation_at};
ghost use Rattle.sc_place.specs.declared.resource.Resource.TheVariants.{Item};
ghost use Rattle.sc_place.specs.declared.operation.PlaceFault.TheVariants.{OutOfMemory};

use crate::endpoint::Routes;
use crate::method::{Method, method_named, methods_at};
use crate::resource::{Resource, resource_of};
use sc_base::Text;
use std::alloc::{AllocError, Global};

/// What a request asks for: a method's work at a resource.
#[derive(Debug, Drop)]
pub enum Operation {
    Landing,
    Conformance,
    Queryables,
    ListCollections,
    AddCollection,
    ReadCollection { id: Text },
    DropCollection { id: Text },
    /// The items of a collection are searched.
    SearchWithin { collection: Text },
    /// Items are inserted or upserted.
    AddItems { collection: Text },
    ReadItem { collection: Text, id: Text },
    ReplaceItem { collection: Text, id: Text },
    PatchItem { collection: Text, id: Text },
    DeleteItem { collection: Text, id: Text },
    /// A search that stands in the target's query.
    GetSearch,
    /// A search that stands in the body.
    PostSearch,
}

/// Why a request asks for nothing that is there.
#[derive(Debug, Drop)]
pub enum PlaceFault {
    /// The target leads nowhere: it isn't UTF-8, no path of the catalogue has its segments, or an id in it isn't UTF-8.
    NoRoute,
    /// The target's resource has other methods alone. They are listed with a comma and a blank between two of them.
    NoMethod { allow: &'static str },
    /// There wasn't enough memory. It may come in place of any other answer.
    OutOfMemory,
}

impl From<AllocError> for PlaceFault {
    ghost from_gives = { λ _ e. e ≡ OutOfMemory };

    fn from(_: AllocError) -> Self {
        PlaceFault::OutOfMemory
    }
}

/// What a method does at an item, or `None` exactly where items don't have it.
fn operation_at_item(collection: Text, id: Text, method: Method) -> Option<Operation>
    ensures { result ≡ operation_at (Item collection id) method }
{
    match method {
        Method::Get => Some(Operation::ReadItem { collection, id }),
        Method::Put => Some(Operation::ReplaceItem { collection, id }),
        Method::Patch => Some(Operation::PatchItem { collection, id }),
        Method::Delete => Some(Operation::DeleteItem { collection, id }),
        Method::Post => None,
    }
}

/// What a method does at a resource, or `None` exactly where the resource doesn't have it.
fn operation_at(resource: Resource, method: Method) -> Option<Operation>
    ensures { result ≡ operation_at resource method }
{
    match (resource, method) {
        (Resource::Landing, Method::Get) => Some(Operation::Landing),
        (Resource::Conformance, Method::Get) => Some(Operation::Conformance),
        (Resource::Queryables, Method::Get) => Some(Operation::Queryables),
        (Resource::Search, Method::Get) => Some(Operation::GetSearch),
        (Resource::Search, Method::Post) => Some(Operation::PostSearch),
        (Resource::Collections, Method::Get) => Some(Operation::ListCollections),
        (Resource::Collections, Method::Post) => Some(Operation::AddCollection),
        (Resource::Collection { id }, Method::Get) => Some(Operation::ReadCollection { id }),
        (Resource::Collection { id }, Method::Delete) => Some(Operation::DropCollection { id }),
        (Resource::Items { collection }, Method::Get) => Some(Operation::SearchWithin {
            collection,
        }),
        (Resource::Items { collection }, Method::Post) => Some(Operation::AddItems { collection }),
        (Resource::Item { collection, id }, method) => operation_at_item(collection, id, method),
        _ => None,
    }
}

/// What a target and the name of a method ask for, or the first that is wrong: the target, then the method.
pub fn operation_of(
    alloc: Global,
    routes: &Routes,
    target: &[u8],
    name: &str,
) -> Result<Operation, PlaceFault>
    ensures { OperationOf target.now name.now result }
{
    let Some(resource) = resource_of(alloc, routes, target)? else {
        return Err(PlaceFault::NoRoute);
    };
    let allow = methods_at(&resource);
    let Some(method) = method_named(name) else {
        return Err(PlaceFault::NoMethod { allow });
    };
    match operation_at(resource, method) {
        Some(operation) => Ok(operation),
        None => Err(PlaceFault::NoMethod { allow }),
    }
}
