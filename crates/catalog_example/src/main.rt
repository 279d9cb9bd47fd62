//! Stories of a catalogue: loads, looks, installs of hulls and snapshots, each with a line that tells its answer.
#![tactic(auto)]

mod hulls;
mod keys;
mod limits;
mod loads;
mod moves;
mod refusals;
mod snapshots;
mod teller;
mod telling;
mod words;

fn main(rt: HostRuntime) -> anyhow::Result<()> {
    moves::between_months(&rt)?;
    refusals::of_ids(&rt)?;
    hulls::what_came_after(&rt)?;
    hulls::with_loads_after(&rt, 64)?;
    hulls::with_loads_after(&rt, 65)?;
    hulls::of_an_earlier_part(&rt)?;
    keys::of_months(&rt)?;
    keys::of_years(&rt)?;
    limits::collections(&rt)?;
    limits::items(&rt)?;
    moves::of_every_kind(&rt)?;
    refusals::of_every_kind(&rt)?;
    snapshots::stay(&rt)
}
