//! The four calls. Each is exactly one turn, whatever it answers.
ghost use Rattle.std.specs.Prelude.{◌≡◌, [], length, IfOk, IfErr};
ghost use Rattle.sc_load.specs.Load.{IsWellFormed};
ghost use Rattle.sc_history.specs.Taken.{Refuses};
ghost use Rattle.sc_catalog.specs.Entries.{by, loads_of, IsInstallOf, IsLookOf, IsSnapshotOf, IsTaken, IsTightOf};
ghost use Rattle.sc_visit.specs.Visits.{TakesTurn};
ghost use Rattle.sc_desk.specs.Turns.{own_of, Publishes};

use crate::desk_pass::DeskPass;
use sc_catalog::{Installed, Load, LoadFault, PartName, Published, Snapshot, Ticket, Tight};
use std::alloc::{AllocError, Global};
use std::sync::Wait;

/// A load was refused.
#[derive(Drop)]
pub struct LoadRefused {
    /// Why.
    pub fault: LoadFault,
    /// The length of the history that refused it.
    pub revision: u64,
}

/// A snapshot of the history that the turn finds, which the pass has then seen whole. The turn lasts no longer than the copy
/// of a pointer to each of two lists.
pub fn take_snapshot<'d, R: Wait>(
    rt: &R,
    alloc: Global,
    pass: &mut DeskPass<'d>,
) -> Result<Snapshot, AllocError>
    ensures turn { TakesTurn by [] pass.old pass.new }
    ensures ok { IfOk result (IsSnapshotOf pass.new.seen) }
{
    let turn = pass.pass.enter(rt);
    let snapshot = turn.value.snapshot(alloc);
    pass.pass.leave(turn);
    snapshot
}

/// Publishes a load after the history that the turn finds: it becomes the one entry that the turn adds, by the number of the
/// pass, or the history refuses it with the first fault that holds, want of memory too, and nothing is added.
pub fn publish<'d, R: Wait>(
    rt: &R,
    alloc: Global,
    pass: &mut DeskPass<'d>,
    load: Load,
) -> Result<Published, LoadRefused>
    requires { IsWellFormed load }
    ensures turn { TakesTurn by (own_of pass.old.number load result) pass.old pass.new }
    ensures took { IfOk result (λ _. Publishes load pass.old pass.new) }
    ensures ok { IfOk result (IsTaken pass.old.number load pass.new.seen) }
    ensures fault { IfErr result (λ refused. Refuses (loads_of pass.new.seen) load refused.fault) }
    ensures revision { IfErr result (λ refused. refused.revision ≡ length pass.new.seen) }
{
    let number = pass.pass.number();
    let mut turn = pass.pass.enter(rt);
    let revision = turn.value.revision();
    match turn.value.publish(alloc, number, load) {
        Ok(published) => {
            pass.pass.leave(turn);
            Ok(published)
        }
        Err(fault) => {
            pass.pass.leave(turn);
            Err(LoadRefused { fault, revision })
        }
    }
}

/// A ticket of the part with the name, as the history has it that the turn finds; none exactly where that has no such part.
pub fn take_look<'d, R: Wait>(
    rt: &R,
    alloc: Global,
    pass: &mut DeskPass<'d>,
    name: &PartName,
) -> Result<Option<Ticket>, AllocError>
    ensures turn { TakesTurn by [] pass.old pass.new }
    ensures ok { IfOk result (IsLookOf pass.new.seen name.now) }
{
    let turn = pass.pass.enter(rt);
    let ticket = turn.value.look(alloc, name);
    pass.pass.leave(turn);
    ticket
}

/// Installs the hull of a ticket that was taken of a history which the pass has seen, or of the beginning of one. It adds no
/// entry, and no bounds become wider.
pub fn put_tight<'d, R: Wait>(
    rt: &R,
    alloc: Global,
    pass: &mut DeskPass<'d>,
    tight: &Tight,
) -> Result<Installed, AllocError>
    requires { IsTightOf pass.old.seen tight.now }
    ensures turn { TakesTurn by [] pass.old pass.new }
    ensures ok { IfOk result (IsInstallOf pass.new.seen tight.now) }
{
    let mut turn = pass.pass.enter(rt);
    match turn.value.install(alloc, tight) {
        Ok(told) => {
            pass.pass.leave(turn);
            Ok(told)
        }
        Err(error) => {
            pass.pass.leave(turn);
            Err(error)
        }
    }
}
