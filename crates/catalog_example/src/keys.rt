//! The parts into which items go.
use crate::loads;
use crate::teller::Teller;
use crate::telling::{begin, insert};

/// An item with a start and an end lies where it starts.
fn insert_span(rt: &HostRuntime, teller: &mut Teller) -> anyhow::Result<()> {
    let text =
        "{\"type\":\"Feature\",\"id\":\"a\",\"geometry\":null,\"properties\":{\"datetime\":null,\"start_datetime\":\"2024-01-30T00:00:00Z\",\"end_datetime\":\"2024-02-02T00:00:00Z\"}}";
    let load = loads::items(rt.alloc(), false, text)?;
    teller.tell(
        rt,
        "insert a 2024-01-30T00:00:00Z to 2024-02-02T00:00:00Z",
        load,
    )
}

/// The month is that of the start, in UTC.
pub fn of_months(rt: &HostRuntime) -> anyhow::Result<()> {
    println!(rt; "Keys of months")?;
    let mut teller = begin(rt, "month")?;
    insert_span(rt, &mut teller)?;
    insert(rt, &mut teller, "b", "2024-01-31T23:30:00-01:00", 1)
}

/// And so is the year.
pub fn of_years(rt: &HostRuntime) -> anyhow::Result<()> {
    println!(rt; "Keys of years")?;
    let mut teller = begin(rt, "year")?;
    insert(rt, &mut teller, "b", "2024-01-31T23:30:00-01:00", 1)
}
