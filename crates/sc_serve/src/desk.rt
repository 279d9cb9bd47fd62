ghost use Rattle.std.specs.Prelude.{◌≡◌, length};
ghost use Rattle.sc_load.specs.Load.{IsWellFormed};
ghost use Rattle.sc_catalog.specs.declared.entry.Entry.{Entry};
ghost use Rattle.sc_visit.specs.Visits.{Visitor};
ghost use Rattle.sc_serve.specs.Desks.{TakesSnapshot, TriesLoad};

use sc_catalog::{Load, Snapshot};
use sc_desk::LoadRefused;
use std::alloc::{AllocError, Global};

/// What came of a load that the history takes.
#[derive(Clone, Copy, Debug, PartialEq, Eq)]
pub enum Tried {
    /// The history is so long with it.
    Taken { revision: u64 },
    /// The same, but it isn't stored yet, since that failed. So many loads of the history are.
    NotStored { revision: u64, stored: u64 },
}

/// A pass with which turns are taken at a catalogue. `R` is what the turns wait by, if they wait at all.
pub trait Desk<R> {
    /// Storing a load may fail. Where nothing is stored it can't.
    ghost may_fail: { Type 0 };

    /// This is seen of the pass, which was as the first of the two when its connection began.
    ghost stands: { Self → Self → Visitor Entry → Type 0 };

    /// The length of the history that the pass knows.
    fn seen(&self) -> u64
        ensures { (begun : Self) (now : Visitor Entry) → stands begun self.now now → result ≡ length now.seen };

    /// A snapshot of the catalogue, in one turn.
    fn take_snapshot(&mut self, rt: &R, alloc: Global) -> Result<Snapshot, AllocError>
        ensures { (begun : Self) (old : Visitor Entry) → stands begun self.old old → (new : Visitor Entry) × stands begun self.new new × TakesSnapshot result old new };

    /// Publishes a load in one turn: it is the one entry that the turn adds, by the number of the pass, or it is refused.
    /// Gives the length of the history with the load, and whether the load is stored.
    fn publish(&mut self, rt: &R, alloc: Global, load: Load) -> Result<Tried, LoadRefused>
        requires { IsWellFormed load }
        ensures { (begun : Self) (old : Visitor Entry) → stands begun self.old old → (new : Visitor Entry) × stands begun self.new new × TriesLoad may_fail load result old new };
}
