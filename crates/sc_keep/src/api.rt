ghost use Rattle.std.specs.Prelude.{◌≡◌};
ghost use Rattle.sc_session.specs.Session.{Session};
ghost use Rattle.sc_keep.specs.Turns.{kept_api};

use crate::calls::{KeptRefused, kept_publish, kept_snapshot};
use crate::pass::KeptPass;
use sc_base::Text;
use sc_desk::LoadRefused;
use sc_kept::{Disk, KeptFault, Load, Snapshot};
use sc_outside::{Sink, Source};
use sc_serve::{Desk, Tried, serve_desk};
use sc_session::ConnEnd;
use std::alloc::{AllocError, Global};
use std::sync::Wait;

impl<'d, R: Wait, D: Disk> Desk<R> for KeptPass<'d, D> {
    ghost use Rattle.std.specs.Prelude.{◌≡◌};
    ghost use Rattle.sc_keep.specs.Turns.{MayFail};

    ghost may_fail = { MayFail D.faults };

    ghost stands = { λ _ now visitor. visitor ≡ now };

    fn seen(&self) -> u64 {
        KeptPass::seen(self)
    }

    fn take_snapshot(&mut self, rt: &R, alloc: Global) -> Result<Snapshot, AllocError> {
        kept_snapshot(rt, alloc, self)
    }

    fn publish(&mut self, rt: &R, alloc: Global, load: Load) -> Result<Tried, LoadRefused> {
        match kept_publish(rt, alloc, self, load) {
            Ok(published) => Ok(Tried::Taken {
                revision: published.revision,
            }),
            Err(KeptRefused { fault, revision }) => match fault {
                KeptFault::Refused { fault } => Err(LoadRefused { fault, revision }),
                KeptFault::NotStored { stored, .. } => Ok(Tried::NotStored { revision, stored }),
            },
        }
    }
}

/// Serves one connection by turns of a pass at the desk of a kept catalogue, up to the first request that asks to close. The
/// base is the address of the catalogue without a slash at its end. It waits for its turns, and answers outside of them. A
/// load is answered with 200 or 201 only once it is stored. Where the disk fails the load stands in the history and waits to be
/// stored, and is answered with 500; over a disk of a type that never fails this doesn't come.
pub fn serve_kept<'d, R: Wait, S: Source, K: Sink, D: Disk>(
    rt: &R,
    alloc: Global,
    pass: &mut KeptPass<'d, D>,
    base: &Text,
    source: &mut S,
    sink: &mut K,
) -> ConnEnd
    ensures { Session (kept_api D.faults base.now)
        (record { left = S.left source.old; ended = S.ended source.old; faults = S.faults source.old; written = K.written sink.old; write_faults = K.faults sink.old; visitor = pass.old })
        (record { left = S.left source.new; ended = S.ended source.new; faults = S.faults source.new; written = K.written sink.new; write_faults = K.faults sink.new; visitor = pass.new })
        result }
{
    serve_desk::<R, KeptPass<'d, D>, S, K>(rt, alloc, pass, base, source, sink)
}
