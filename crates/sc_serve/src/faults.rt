ghost use Rattle.std.specs.Prelude.{◌≡◌, ◌≢◌, IfOk, IsTrue};
ghost use Rattle.sc_http.specs.Reply.{is_status};
ghost use Rattle.sc_load.specs.declared.fault.LoadFault.TheVariants as Load;
ghost use Rattle.sc_refusal.specs.declared.fault.RouteFault.TheVariants as Route;
ghost use Rattle.sc_refusal.specs.Refusals.{load_refused};
ghost use Rattle.sc_serve.specs.Replies.{of_end, of_refusal, of_route};

use sc_http::HttpEnd;
use sc_load::LoadFault;
use sc_refusal::{Refusal, RouteFault, head_refusal, length_refusal, load_refusal, route_refusal};
use sc_said::{Said, refusal_text};
use std::alloc::{AllocError, Global};

/// What is said of a refusal.
fn said_of(alloc: Global, refusal: Refusal) -> Result<Said, AllocError>
    requires { IsTrue (is_status refusal.status) }
    ensures { IfOk result (λ said. said ≡ of_refusal refusal) }
{
    let text = refusal_text(alloc, refusal.name.as_str(), refusal.about.as_str())?;
    Ok(Said::of(refusal.status, false, text))
}

/// What is said of a request that asks for nothing that can be done. Of want of memory nothing is said.
pub fn said_of_route(alloc: Global, fault: RouteFault) -> Result<Said, AllocError>
    ensures known { IfOk result (λ _. fault ≢ Route.OutOfMemory) }
    ensures said { IfOk result (λ said. said ≡ of_route fault) }
{
    let refusal = route_refusal(alloc, &fault)?;
    match fault {
        RouteFault::NoMethod { allow } => {
            let text = refusal_text(alloc, refusal.name.as_str(), refusal.about.as_str())?;
            Ok(Said::not_allowed(allow, text))
        }
        _ => said_of(alloc, refusal),
    }
}

/// What is said of a load that is refused. Of want of memory nothing is said.
pub fn said_of_load(alloc: Global, fault: LoadFault) -> Result<Said, AllocError>
    ensures known { IfOk result (λ _. fault ≢ Load.OutOfMemory) }
    ensures said { IfOk result (λ said. said ≡ of_refusal (load_refused fault)) }
{
    let refusal = load_refusal(alloc, fault)?;
    said_of(alloc, refusal)
}

/// What is said of an end of the requests, if anything is.
pub fn said_of_end(alloc: Global, end: &HttpEnd) -> Result<Option<Said>, AllocError>
    ensures { IfOk result (λ said. said ≡ of_end end.now) }
{
    match end {
        HttpEnd::BadHead { fault } => {
            let refusal = head_refusal(alloc, *fault)?;
            Ok(Some(said_of(alloc, refusal)?))
        }
        HttpEnd::BadLength { fault } => {
            let refusal = length_refusal(alloc, *fault)?;
            Ok(Some(said_of(alloc, refusal)?))
        }
        _ => Ok(None),
    }
}
