ghost use Rattle.std.specs.Prelude.{◌≡◌};
ghost use Rattle.sc_refusal.specs.declared.fault.RouteFault.TheVariants.{OutOfMemory};

use sc_base::Text;
use sc_json::JsonFault;
use sc_load::PrepareFault;
use sc_query::QueryFault;
use std::alloc::{AllocError, AllocFailed};

/// Why a request asks for nothing that can be done: the first of these that holds. An inner fault is never want of memory.
#[derive(Debug, Drop)]
pub enum RouteFault {
    /// The target leads nowhere: it isn't UTF-8, no path of the catalogue has its segments, or an id in it isn't UTF-8.
    NoRoute,
    /// The target's resource doesn't have the method. Those that it has are listed with a comma and a blank between two.
    NoMethod { allow: Text },
    /// The method takes a body, and there is no `Content-Length`.
    NoLength,
    /// The body is no JSON text.
    BadBody { fault: JsonFault },
    /// The body's tree is no load.
    BadLoad { fault: PrepareFault },
    /// The parameters of a search are no query.
    BadQuery { fault: QueryFault },
    /// `Catalogue-Seen` isn't digits of a number below 2^64, or is there twice.
    BadSeen,
    /// There wasn't enough memory. It may come in place of any other answer.
    OutOfMemory,
}

impl From<AllocError> for RouteFault {
    ghost from_gives = { λ _ e. e ≡ OutOfMemory };

    fn from(_: AllocError) -> Self {
        RouteFault::OutOfMemory
    }
}

impl<T: Drop> From<AllocFailed<T>> for RouteFault {
    ghost from_gives = { λ _ e. e ≡ OutOfMemory };

    fn from(_: AllocFailed<T>) -> Self {
        RouteFault::OutOfMemory
    }
}

impl From<JsonFault> for RouteFault {
    ghost use Rattle.sc_refusal.specs.Faults.{of_json};

    ghost from_gives = { λ fault e. e ≡ of_json fault };

    fn from(fault: JsonFault) -> Self {
        match fault {
            JsonFault::OutOfMemory => RouteFault::OutOfMemory,
            _ => RouteFault::BadBody { fault },
        }
    }
}

impl From<PrepareFault> for RouteFault {
    ghost use Rattle.sc_refusal.specs.Faults.{of_prepare};

    ghost from_gives = { λ fault e. e ≡ of_prepare fault };

    fn from(fault: PrepareFault) -> Self {
        match fault {
            PrepareFault::OutOfMemory => RouteFault::OutOfMemory,
            _ => RouteFault::BadLoad { fault },
        }
    }
}

impl From<QueryFault> for RouteFault {
    ghost use Rattle.sc_refusal.specs.Faults.{of_query};

    ghost from_gives = { λ fault e. e ≡ of_query fault };

    fn from(fault: QueryFault) -> Self {
        match fault {
            QueryFault::OutOfMemory => RouteFault::OutOfMemory,
            _ => RouteFault::BadQuery { fault },
        }
    }
}
