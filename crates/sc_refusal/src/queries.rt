ghost use Rattle.std.specs.Prelude.{◌≡◌, ◌≢◌, IfOk, IsTrue};
ghost use Rattle.sc_http.specs.Reply.{is_status};
ghost use Rattle.sc_query.specs.declared.fault.QueryFault.TheVariants.{OutOfMemory};
ghost use Rattle.sc_refusal.specs.Refusals as spec;

use crate::inner::{filter_told, geometry_told, sort_told, time_told, token_told};
use crate::refusal::{Refusal, plain, telling};
use sc_base::Text;
use sc_expr::CqlFault;
use sc_geom::GeomFault;
use sc_query::QueryFault;
use std::alloc::{AllocError, Global};

/// What is told of a fault of a geometry that need not be there.
fn if_geometry_told(alloc: Global, fault: Option<GeomFault>) -> Result<Text, AllocError>
    ensures { IfOk result (λ about. about ≡ spec.if_told spec.geometry_told fault) }
{
    match fault {
        Some(fault) => geometry_told(alloc, fault),
        None => Text::from_str(alloc, ""),
    }
}

/// What is told of a fault of a filter that need not be there.
fn if_filter_told(alloc: Global, fault: Option<CqlFault>) -> Result<Text, AllocError>
    ensures { IfOk result (λ about. about ≡ spec.if_told spec.filter_told fault) }
{
    match fault {
        Some(fault) => filter_told(alloc, fault),
        None => Text::from_str(alloc, ""),
    }
}

/// What is told of parameters that are no query. Of want of memory nothing is told.
pub fn query_refusal(alloc: Global, fault: QueryFault) -> Result<Refusal, AllocError>
    ensures told { IfOk result (λ refusal. refusal ≡ spec.query_refused fault) }
    ensures known { IfOk result (λ _. fault ≢ OutOfMemory) }
    ensures served { IfOk result (λ refusal. IsTrue (is_status refusal.status)) }
{
    match fault {
        QueryFault::BadLimit => plain(alloc, 400, "BadLimit"),
        QueryFault::BadBbox => plain(alloc, 400, "BadBbox"),
        QueryFault::BadDatetime { fault } => {
            telling(alloc, 400, "BadDatetime", time_told(alloc, fault)?)
        }
        QueryFault::BadIntersects { fault } => {
            telling(alloc, 400, "BadIntersects", if_geometry_told(alloc, fault)?)
        }
        QueryFault::BboxAndIntersects => plain(alloc, 400, "BboxAndIntersects"),
        QueryFault::BadIds => plain(alloc, 400, "BadIds"),
        QueryFault::BadCollections => plain(alloc, 400, "BadCollections"),
        QueryFault::BadLang => plain(alloc, 400, "BadLang"),
        QueryFault::BadCrs => plain(alloc, 400, "BadCrs"),
        QueryFault::BadFilter { fault } => {
            telling(alloc, 400, "BadFilter", if_filter_told(alloc, fault)?)
        }
        QueryFault::BadSort { fault } => telling(alloc, 400, "BadSort", sort_told(alloc, fault)?),
        QueryFault::BadToken { fault } => {
            telling(alloc, 400, "BadToken", token_told(alloc, fault)?)
        }
        QueryFault::BadBody => plain(alloc, 400, "BadBody"),
        QueryFault::OutOfMemory => Err(AllocError),
    }
}
