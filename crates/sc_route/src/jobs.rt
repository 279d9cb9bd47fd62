ghost use Rattle.std.specs.Prelude.{IfOk, IsUtf8, MatchResult};
ghost use Rattle.sc_route.specs.Jobs.{AskedOf, Does, Fails, JobOf, IsFormed};

use crate::job::{Job, Work};
use crate::loads::{added_collection, added_items, patched_item, replaced_item};
use crate::searches::{search_of_body, search_of_pairs, search_within};
use crate::seen::seen_in;
use sc_base::Text;
use sc_http::Request;
use sc_load::Load;
use sc_place::{Operation, PlaceFault, Routes, operation_of};
use sc_refusal::RouteFault;
use std::alloc::Global;

/// What a request asks for: an operation.
fn asked(alloc: Global, routes: &Routes, request: &Request) -> Result<Operation, RouteFault>
    ensures { AskedOf request.now result }
{
    let method = request.method.as_str();
    match operation_of(alloc, routes, request.target.as_slice(), method) {
        Ok(operation) => Ok(operation),
        Err(PlaceFault::NoRoute) => Err(RouteFault::NoRoute),
        Err(PlaceFault::NoMethod { allow }) => {
            let allow = Text::from_str(alloc, allow)?;
            Err(RouteFault::NoMethod { allow })
        }
        Err(PlaceFault::OutOfMemory) => Err(RouteFault::OutOfMemory),
    }
}

/// The work that an operation is.
fn work_of(
    alloc: Global,
    base: &Text,
    operation: Operation,
    request: &Request,
) -> Result<Work, RouteFault>
    requires { IsUtf8 request.now.target }
    ensures answer { MatchResult result (Does base.now request.now operation) (Fails request.now operation) }
    ensures formed { IfOk result IsFormed }
{
    match operation {
        Operation::Landing => Ok(Work::Landing),
        Operation::Conformance => Ok(Work::Conformance),
        Operation::Queryables => Ok(Work::Queryables),
        Operation::ListCollections => Ok(Work::Collections),
        Operation::ReadCollection { id } => Ok(Work::Collection { id }),
        Operation::ReadItem { collection, id } => Ok(Work::Item { collection, id }),
        Operation::GetSearch => search_of_pairs(alloc, base, request),
        Operation::SearchWithin { collection } => search_within(alloc, base, collection, request),
        Operation::PostSearch => search_of_body(alloc, base, request),
        Operation::AddCollection => Ok(Work::Load(added_collection(alloc, request)?)),
        Operation::AddItems { collection } => {
            Ok(Work::Load(added_items(alloc, &collection, request)?))
        }
        Operation::ReplaceItem { collection, id } => {
            Ok(Work::Load(replaced_item(alloc, &collection, &id, request)?))
        }
        Operation::PatchItem { collection, id } => {
            Ok(Work::Load(patched_item(alloc, collection, id, request)?))
        }
        Operation::DropCollection { id } => Ok(Work::Load(Load::DropCollection { id })),
        Operation::DeleteItem { collection, id } => {
            Ok(Work::Load(Load::Delete { collection, id }))
        }
    }
}

/// The job of a request, or the first fault that holds: in its target, its method, the length of its body, the body as
/// JSON, the items or the collection in it, its query, and the revision that it says was seen. The base is the address of
/// the catalogue without a slash at its end. A load that is given is well-formed.
pub fn job_of(
    alloc: Global,
    routes: &Routes,
    base: &Text,
    request: &Request,
) -> Result<Job, RouteFault>
    ensures answer { JobOf base.now request.now result }
    ensures formed { IfOk result (λ job. IsFormed job.work) }
{
    let operation = asked(alloc, routes, request)?;
    let work = work_of(alloc, base, operation, request)?;
    match seen_in(request.headers.as_slice()) {
        Some(seen) => Ok(Job { seen, work }),
        None => Err(RouteFault::BadSeen),
    }
}
