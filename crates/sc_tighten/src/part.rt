ghost use Rattle.sc_tighten.specs.Work.{TightensPart};

use crate::outcome::Outcome;
use sc_desk::{DeskPass, Installed, PartName, put_tight, take_look};
use sc_outside::Gate;
use std::alloc::Global;
use std::sync::Wait;

/// Looks at a part, and installs the hull of what it saw. The lock is free in between, while the hull is found.
pub(crate) fn tighten_part<'d, R: Wait, G: Gate>(
    rt: &R,
    alloc: Global,
    pass: &mut DeskPass<'d>,
    name: &PartName,
    gate: &mut G,
) -> Outcome
    ensures { TightensPart name.now result pass.old pass.new }
{
    match take_look(rt, alloc, pass, name) {
        Ok(Some(ticket)) => {
            gate.point(2);
            match put_tight(rt, alloc, pass, &ticket.tighten()) {
                Ok(told) => Outcome::Told(told),
                Err(_) => Outcome::NoMemory,
            }
        }
        Ok(None) => Outcome::Told(Installed::Gone),
        Err(_) => Outcome::NoMemory,
    }
}
