use sc_time::{
    Instant, Range, TimeFault, month_of, read_date, read_instant, read_range, write_instant,
    year_of,
};
use std::alloc::{AllocError, Global};

fn fault(alloc: Global, fault: TimeFault) -> Result<String, AllocError> {
    let name = match fault {
        TimeFault::BadForm => "BadForm",
        TimeFault::BadDate => "BadDate",
        TimeFault::OutOfRange => "OutOfRange",
        TimeFault::Backwards => "Backwards",
    };
    format!(in alloc; "fault {name}")
}

fn moment(alloc: Global, reading: Result<Instant, TimeFault>) -> Result<String, AllocError> {
    match reading {
        Ok(at) => {
            let text = write_instant(alloc, at)?;
            let (nanoseconds, year, month) = (at.nanoseconds(), year_of(at), month_of(at));
            let written = text.as_str();
            format!(in alloc; "ok {nanoseconds} {written} {year} {month}")
        }
        Err(found) => fault(alloc, found),
    }
}

/// `instant`: a date-time, its nanoseconds, how it is written, its year and its month.
pub fn instant(alloc: Global, input: &[u8]) -> Result<String, AllocError> {
    moment(alloc, read_instant(input))
}

/// `date`: the same of a date.
pub fn date(alloc: Global, input: &[u8]) -> Result<String, AllocError> {
    moment(alloc, read_date(input))
}

fn end(alloc: Global, end: Option<Instant>) -> Result<String, AllocError> {
    match end {
        Some(at) => {
            let nanoseconds = at.nanoseconds();
            format!(in alloc; "{nanoseconds}")
        }
        None => String::from_str(alloc, "open"),
    }
}

fn ends(alloc: Global, range: &Range) -> Result<String, AllocError> {
    let from = end(alloc, range.from())?;
    let to = end(alloc, range.to())?;
    format!(in alloc; "ok {from} {to}")
}

/// `range`: the ends of a range of time.
pub fn range(alloc: Global, input: &[u8]) -> Result<String, AllocError> {
    match read_range(input) {
        Ok(range) => ends(alloc, &range),
        Err(found) => fault(alloc, found),
    }
}
