//! How answers show why filters and searches are refused.
use sc_expr::CqlFault;
use sc_geom::GeomFault;
use sc_query::QueryFault;
use sc_sort::SortFault;
use sc_time::TimeFault;
use sc_token::TokenFault;
use std::alloc::{AllocError, Global};

pub fn filter_fault(alloc: Global, fault: CqlFault) -> Result<String, AllocError> {
    match fault {
        CqlFault::Syntax { at } => format!(in alloc; "Syntax {at}"),
        CqlFault::TooDeep => String::from_str(alloc, "TooDeep"),
        CqlFault::TooManyNodes => String::from_str(alloc, "TooManyNodes"),
        CqlFault::BadLiteral { at } => format!(in alloc; "BadLiteral {at}"),
        CqlFault::OutOfMemory => Err(AllocError),
    }
}

fn time_fault(fault: TimeFault) -> &'static str {
    match fault {
        TimeFault::BadForm => "BadDatetime BadForm",
        TimeFault::BadDate => "BadDatetime BadDate",
        TimeFault::OutOfRange => "BadDatetime OutOfRange",
        TimeFault::Backwards => "BadDatetime Backwards",
    }
}

fn geometry_fault(alloc: Global, fault: Option<GeomFault>) -> Result<String, AllocError> {
    match fault {
        None => String::from_str(alloc, "BadIntersects"),
        Some(GeomFault::BadShape) => String::from_str(alloc, "BadIntersects BadShape"),
        Some(GeomFault::OpenRing) => String::from_str(alloc, "BadIntersects OpenRing"),
        Some(GeomFault::OutOfWorld) => String::from_str(alloc, "BadIntersects OutOfWorld"),
        Some(GeomFault::TooManyPositions { count }) => {
            format!(in alloc; "BadIntersects TooManyPositions {count}")
        }
        Some(GeomFault::OutOfMemory) => Err(AllocError),
    }
}

fn bad_filter(alloc: Global, fault: Option<CqlFault>) -> Result<String, AllocError> {
    match fault {
        None => String::from_str(alloc, "BadFilter"),
        Some(found) => {
            let inner = filter_fault(alloc, found)?;
            format!(in alloc; "BadFilter {inner}")
        }
    }
}

fn sort_fault(alloc: Global, fault: SortFault) -> Result<String, AllocError> {
    match fault {
        SortFault::BadField => String::from_str(alloc, "BadSort BadField"),
        SortFault::BadDirection => String::from_str(alloc, "BadSort BadDirection"),
        SortFault::TooManyKeys { count } => format!(in alloc; "BadSort TooManyKeys {count}"),
        SortFault::OutOfMemory => Err(AllocError),
    }
}

fn token_fault(alloc: Global, fault: TokenFault) -> Result<String, AllocError> {
    match fault {
        TokenFault::NotHex => String::from_str(alloc, "BadToken NotHex"),
        TokenFault::NotAList => String::from_str(alloc, "BadToken NotAList"),
        TokenFault::WrongCount { count } => format!(in alloc; "BadToken WrongCount {count}"),
        TokenFault::WrongKind => String::from_str(alloc, "BadToken WrongKind"),
        TokenFault::OutOfMemory => Err(AllocError),
    }
}

pub fn query_fault(alloc: Global, fault: QueryFault) -> Result<String, AllocError> {
    match fault {
        QueryFault::BadLimit => String::from_str(alloc, "BadLimit"),
        QueryFault::BadBbox => String::from_str(alloc, "BadBbox"),
        QueryFault::BadDatetime { fault } => String::from_str(alloc, time_fault(fault)),
        QueryFault::BadIntersects { fault } => geometry_fault(alloc, fault),
        QueryFault::BboxAndIntersects => String::from_str(alloc, "BboxAndIntersects"),
        QueryFault::BadIds => String::from_str(alloc, "BadIds"),
        QueryFault::BadCollections => String::from_str(alloc, "BadCollections"),
        QueryFault::BadLang => String::from_str(alloc, "BadLang"),
        QueryFault::BadCrs => String::from_str(alloc, "BadCrs"),
        QueryFault::BadFilter { fault } => bad_filter(alloc, fault),
        QueryFault::BadSort { fault } => sort_fault(alloc, fault),
        QueryFault::BadToken { fault } => token_fault(alloc, fault),
        QueryFault::BadBody => String::from_str(alloc, "BadBody"),
        QueryFault::OutOfMemory => Err(AllocError),
    }
}
