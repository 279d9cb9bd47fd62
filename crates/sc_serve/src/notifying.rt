//! A pass of a desk that tells of what its loads change.
ghost use Rattle.std.specs.Prelude.{◌≡◌};
ghost use Rattle.sc_serve.specs.Notices.{AreTold};

use crate::desk::{Desk, Tried};
use sc_catalog::{Load, PartName, Snapshot};
use sc_desk::{DeskPass, LoadRefused, publish, take_snapshot};
use sc_notice::{Notice, NoticePass, tell};
use sc_outside::Gate;
use std::alloc::{AllocError, Global};
use std::sync::Wait;

/// Tells of the parts with these names, one after the other. A notice that finds the queue full is dropped: the bounds of its
/// part stay as they are.
fn tell_all<'n, R: Wait>(rt: &R, notices: &mut NoticePass<'n>, names: Vec<PartName>)
    ensures { AreTold names.items notices.old notices.new }
{
    for name in names {
        let _ = tell(rt, notices, Notice::Part(name));
    }
}

/// A pass of a desk, the pass by which it tells of the parts that its loads change, and the gate that it comes to behind each
/// snapshot.
#[derive(Drop)]
pub struct NotifyingPass<'p, 'd, 'q, 'n, 'g, G> {
    pub pass: &'p mut DeskPass<'d>,
    pub notices: &'q mut NoticePass<'n>,
    pub gate: &'g mut G,
}

impl<'p, 'd, 'q, 'n, 'g, R: Wait, G: Gate> Desk<R> for NotifyingPass<'p, 'd, 'q, 'n, 'g, G> {
    ghost use Rattle.std.specs.Prelude.{◌≡◌};
    ghost use Rattle.sc_serve.specs.Notices.{TellsOfLoads};

    ghost may_fail = { ⊥ };

    ghost stands = { λ begun now visitor.
        (now.pass.ghost_name ≡ begun.pass.ghost_name) × (now.notices.ghost_name ≡ begun.notices.ghost_name) × (visitor ≡ now.pass.now) × TellsOfLoads begun.pass.now now.pass.now begun.notices.now now.notices.now };

    fn seen(&self) -> u64 {
        self.pass.seen()
    }

    fn take_snapshot(&mut self, rt: &R, alloc: Global) -> Result<Snapshot, AllocError> {
        let snapshot = take_snapshot(rt, alloc, self.pass);
        self.gate.point(1);
        snapshot
    }

    fn publish(&mut self, rt: &R, alloc: Global, load: Load) -> Result<Tried, LoadRefused> {
        match publish(rt, alloc, self.pass, load) {
            Err(refused) => Err(refused),
            Ok(published) => {
                let revision = published.revision;
                tell_all(rt, self.notices, published.touched.into_vec());
                Ok(Tried::Taken { revision })
            }
        }
    }
}
