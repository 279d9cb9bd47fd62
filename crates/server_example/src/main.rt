//! Stories of the server: connections over memory, a search that is answered while another connection loads, notices, the
//! tightening of bounds, and a kept catalogue. Each prints what its clients read, or what its calls answer.
#![tactic(auto)]

mod connections;
mod kept;
mod loads;
mod notices;
mod outside;
mod replies;
mod requests;
mod seats;
mod tightening;
mod words;

fn main(rt: HostRuntime) -> anyhow::Result<()> {
    connections::of_three_requests(&rt)?;
    outside::of_a_held_search(&rt)?;
    notices::of_a_full_queue(&rt)?;
    tightening::of_a_part(&rt)?;
    kept::of_a_failing_disk(&rt)?;
    kept::of_a_sure_disk(&rt)
}
