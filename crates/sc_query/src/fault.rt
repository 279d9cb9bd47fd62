ghost use Rattle.std.specs.Prelude.{◌≡◌, ◌≢◌};
ghost use Rattle.sc_json.specs.declared.fault.JsonFault.TheVariants as texts;
ghost use Rattle.sc_query.specs.declared.fault.QueryFault.TheVariants.{OutOfMemory};

use sc_expr::CqlFault;
use sc_geom::GeomFault;
use sc_json::JsonFault;
use sc_sort::SortFault;
use sc_time::TimeFault;
use sc_token::TokenFault;
use std::alloc::{AllocError, AllocFailed};

/// Why the parameters of a search are no query: the first of these that holds, where `BadBody` comes before all others. An
/// inner fault is never want of memory.
#[derive(Clone, Copy, Debug, PartialEq, Eq)]
pub enum QueryFault {
    /// `limit` isn't digits in a query string, or isn't a whole number in a body; or it is below 1.
    BadLimit,
    /// `bbox` isn't numbers that span boxes.
    BadBbox,
    /// `datetime` is no range of time.
    BadDatetime { fault: TimeFault },
    /// `intersects` is no geometry of at most 1,000 positions; without a fault where its text is no JSON text.
    BadIntersects { fault: Option<GeomFault> },
    /// `bbox` and `intersects` are both there.
    BboxAndIntersects,
    /// `ids` isn't a list of texts, one of them is empty, or there are more than 10,000.
    BadIds,
    /// `collections` isn't a list of texts, one of them is empty, or there are more than 10,000.
    BadCollections,
    /// `filter-lang` is neither `cql2-text` nor `cql2-json`.
    BadLang,
    /// `filter-crs` isn't `http://www.opengis.net/def/crs/OGC/1.3/CRS84`.
    BadCrs,
    /// `filter` is no filter of its language; without a fault where CQL2 JSON is no JSON text, and where CQL2 text is no
    /// text.
    BadFilter { fault: Option<CqlFault> },
    /// `sortby` is no sort.
    BadSort { fault: SortFault },
    /// `token` is no token under the sort.
    BadToken { fault: TokenFault },
    /// The body is no object.
    BadBody,
    /// There wasn't enough memory.
    OutOfMemory,
}

impl From<AllocError> for QueryFault {
    ghost from_gives = { λ _ e. e ≡ OutOfMemory };

    fn from(_: AllocError) -> Self {
        QueryFault::OutOfMemory
    }
}

impl<T: Drop> From<AllocFailed<T>> for QueryFault {
    ghost from_gives = { λ _ e. e ≡ OutOfMemory };

    fn from(_: AllocFailed<T>) -> Self {
        QueryFault::OutOfMemory
    }
}

/// The fault of a search one of whose texts is no JSON text for this reason: the one that is given, or want of memory.
pub(crate) fn unspelled(fault: JsonFault, bad: QueryFault) -> QueryFault
    ensures known { result ≢ OutOfMemory → fault ≢ texts.OutOfMemory }
    ensures bad { result ≢ OutOfMemory → result ≡ bad }
{
    match fault {
        JsonFault::OutOfMemory => QueryFault::OutOfMemory,
        _ => bad,
    }
}
