ghost use Rattle.std.specs.Prelude.{MatchOption};
ghost use Rattle.sc_tighten.specs.Work.{tightener, HearsStop, WorkTurn, Works};

use crate::count::{WorkCount, WorkDone};
use crate::outcome::Outcome;
use crate::part::tighten_part;
use sc_desk::DeskPass;
use sc_notice::{Notice, NoticePass, hear};
use sc_outside::Gate;
use std::alloc::Global;
use std::sync::Wait;

/// One turn of the work: hears a notice, and tightens the part that it names. None where it heard `Stop`.
fn take_turn<'d, 'n, R: Wait, G: Gate>(
    rt: &R,
    alloc: Global,
    pass: &mut DeskPass<'d>,
    notices: &mut NoticePass<'n>,
    gate: &mut G,
) -> Option<Outcome>
    ensures { MatchOption result (HearsStop (tightener pass.old notices.old) (tightener pass.new notices.new))
        (λ outcome. WorkTurn outcome (tightener pass.old notices.old) (tightener pass.new notices.new)) }
{
    match hear(rt, notices) {
        Some(Notice::Part(name)) => Some(tighten_part(rt, alloc, pass, &name, gate)),
        Some(Notice::Stop) => None,
        None => {
            gate.point(3);
            Some(Outcome::Idle)
        }
    }
}

/// Takes so many turns, and fewer only where it hears `Stop`. A turn hears one notice. Where that names a part, the turn looks
/// at the part, finds the hull of what it saw outside the lock, and installs it; where none is heard, it does nothing. It adds
/// no entry to the history.
///
/// The gate is passed at place 2 between the look and the install, and at place 3 where no notice was heard. Each turn but the
/// one that heard `Stop` counts once. A look or an install for which there is no memory changes nothing.
pub fn work<'d, 'n, R: Wait, G: Gate>(
    rt: &R,
    alloc: Global,
    pass: &mut DeskPass<'d>,
    notices: &mut NoticePass<'n>,
    turns: u64,
    gate: &mut G,
) -> WorkDone
    ensures { Works turns result (tightener pass.old notices.old) (tightener pass.new notices.new) }
{
    let mut count = WorkCount::new();
    for _ in 0..turns {
        match take_turn(rt, alloc, pass, notices, gate) {
            Some(outcome) => count.add(outcome),
            None => return WorkDone::Stopped(count),
        }
    }
    WorkDone::Done(count)
}
