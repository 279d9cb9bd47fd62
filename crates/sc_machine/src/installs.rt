//! Steps that install the hulls of tickets.
ghost use Rattle.std.specs.Prelude.{◌≡◌, ◌≢◌, IfOk, IfSome, None, Some};
ghost use Rattle.std.specs.BTreeMap.{get};
ghost use Rattle.sc_base.specs.Text.{text_order};
ghost use Rattle.sc_history.specs.Part.{bounds_of};
ghost use Rattle.sc_catalog.specs.Entries.{IsTightOf};
ghost use Rattle.sc_machine.specs.State.{named};
ghost use Rattle.sc_machine.specs.Looks.{IsInstalled, TakesInstall, told_of};
ghost use Rattle.sc_machine.specs.Inside.{Hulls, IsKept, Snaps, looked, state_of};

use sc_base::Text;
use sc_catalog::{Catalogue, Installed, PartName, Tight};
use sc_outcome::{Outcome, no_such_name};
use std::alloc::{AllocError, Global};
use std::collections::BTreeMap;

/// What is told of an install, with the bounds that the part has after it.
fn tell(catalogue: &Catalogue, part: &PartName, installed: Installed) -> Outcome
    requires { told_of installed (bounds_of part.now catalogue.now.parts) ≢ None }
    ensures { told_of installed (bounds_of part.now catalogue.now.parts) ≡ Some result }
{
    match installed {
        Installed::TooOld { kept_from } => Outcome::TooOld { kept_from },
        Installed::Gone => Outcome::NotThere,
        installed => match (catalogue.bounds_of(part), installed) {
            (Some(bounds), Installed::Exact) => Outcome::Exact { bounds },
            (Some(bounds), _) => Outcome::Joined { bounds },
            (None, _) => unreachable!(),
        },
    }
}

/// Installs the hull of a ticket.
fn install_tight(
    alloc: Global,
    catalogue: &mut Catalogue,
    tight: &Tight,
) -> Result<Outcome, AllocError>
    requires { IsTightOf catalogue.old.entries tight.now }
    ensures told { IfOk result (λ outcome. (snaps : Snaps) (hulls : Hulls) → IsInstalled (looked tight.now) (state_of catalogue.old snaps hulls) (state_of catalogue.new snaps hulls) outcome) }
    ensures kept { (snaps : Snaps) (hulls : Hulls) → IsKept catalogue.old.entries snaps hulls → IsKept catalogue.new.entries snaps hulls }
{
    let installed = catalogue.install(alloc, tight)?;
    Ok(tell(catalogue, tight.name(), installed))
}

/// Installs the hull of the ticket with a name.
pub(crate) fn take_install(
    alloc: Global,
    catalogue: &mut Catalogue,
    tickets: &BTreeMap<Text, Tight>,
    ticket: Text,
) -> Result<Outcome, AllocError>
    requires { IfSome (get text_order tickets.now ticket) (IsTightOf catalogue.old.entries) }
    ensures told { IfOk result (λ outcome. (snaps : Snaps) →
        TakesInstall ticket (named ticket (state_of catalogue.old snaps tickets.now).tickets) (state_of catalogue.old snaps tickets.now) (state_of catalogue.new snaps tickets.now) outcome) }
    ensures kept { (snaps : Snaps) (hulls : Hulls) → IsKept catalogue.old.entries snaps hulls → IsKept catalogue.new.entries snaps hulls }
{
    match tickets.get(&ticket) {
        None => no_such_name(alloc, ticket),
        Some(tight) => install_tight(alloc, catalogue, tight),
    }
}
