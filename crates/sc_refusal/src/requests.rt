ghost use Rattle.std.specs.Prelude.{◌≡◌, ◌≢◌, IfOk, IsTrue};
ghost use Rattle.sc_http.specs.Reply.{is_status};
ghost use Rattle.sc_refusal.specs.declared.fault.RouteFault.TheVariants.{OutOfMemory};
ghost use Rattle.sc_refusal.specs.Refusals as spec;

use crate::fault::RouteFault;
use crate::inner::{head_told, json_told, length_told};
use crate::loads::prepare_refusal;
use crate::queries::query_refusal;
use crate::refusal::{Refusal, plain, telling};
use sc_http::{HeadFault, LengthFault};
use std::alloc::{AllocError, Global};

/// What is told of bytes that are no head.
pub fn head_refusal(alloc: Global, fault: HeadFault) -> Result<Refusal, AllocError>
    ensures told { IfOk result (λ refusal. refusal ≡ spec.head_refused fault) }
    ensures served { IfOk result (λ refusal. IsTrue (is_status refusal.status)) }
{
    let status = match fault {
        HeadFault::Malformed => 400,
        HeadFault::TooLarge => 431,
    };
    telling(alloc, status, "BadHead", head_told(alloc, fault)?)
}

/// What is told of a head whose lines give no length of a body.
pub fn length_refusal(alloc: Global, fault: LengthFault) -> Result<Refusal, AllocError>
    ensures told { IfOk result (λ refusal. refusal ≡ spec.length_refused fault) }
    ensures served { IfOk result (λ refusal. IsTrue (is_status refusal.status)) }
{
    let status = match fault {
        LengthFault::Coded => 501,
        LengthFault::Unreadable => 400,
        LengthFault::TooLong => 413,
    };
    telling(alloc, status, "BadLength", length_told(alloc, fault)?)
}

/// What is told of a request that asks for nothing that can be done. Of want of memory nothing is told.
pub fn route_refusal(alloc: Global, fault: &RouteFault) -> Result<Refusal, AllocError>
    ensures told { IfOk result (λ refusal. refusal ≡ spec.route_refused fault.now) }
    ensures known { IfOk result (λ _. fault.now ≢ OutOfMemory) }
    ensures served { IfOk result (λ refusal. IsTrue (is_status refusal.status)) }
{
    match fault {
        RouteFault::NoRoute => plain(alloc, 404, "NoRoute"),
        RouteFault::NoMethod { .. } => plain(alloc, 405, "NoMethod"),
        RouteFault::NoLength => plain(alloc, 411, "NoLength"),
        RouteFault::BadBody { fault } => telling(alloc, 400, "BadBody", json_told(alloc, *fault)?),
        RouteFault::BadLoad { fault } => prepare_refusal(alloc, *fault),
        RouteFault::BadQuery { fault } => query_refusal(alloc, *fault),
        RouteFault::BadSeen => plain(alloc, 400, "BadSeen"),
        RouteFault::OutOfMemory => Err(AllocError),
    }
}
