//! Steps that publish loads.
ghost use Rattle.std.specs.Prelude.{IfOk};
ghost use Rattle.sc_load.specs.Load.{IsWellFormed};
ghost use Rattle.sc_script.specs.Step.{HasGoodTree};
ghost use Rattle.sc_machine.specs.Inside.{Hulls, IsKept, Snaps, state_of};
ghost use Rattle.sc_machine.specs.Loads.{Publishes, PublishesLoad};

use crate::drafts::prepare;
use sc_catalog::{Catalogue, Load};
use sc_outcome::{Outcome, refused_of};
use sc_refusal::{load_refusal, prepare_refusal};
use sc_script::Draft;
use std::alloc::{AllocError, Global};

/// Publishes a load.
fn publish_load(
    alloc: Global,
    catalogue: &mut Catalogue,
    by: u32,
    load: Load,
) -> Result<Outcome, AllocError>
    requires { IsWellFormed load }
    ensures told { IfOk result (λ outcome. (snaps : Snaps) (hulls : Hulls) → PublishesLoad by load (state_of catalogue.old snaps hulls) (state_of catalogue.new snaps hulls) outcome) }
    ensures kept { (snaps : Snaps) (hulls : Hulls) → IsKept catalogue.old.entries snaps hulls → IsKept catalogue.new.entries snaps hulls }
{
    match catalogue.publish(alloc, by, load) {
        Ok(published) => Ok(Outcome::Revision {
            revision: published.revision,
        }),
        Err(fault) => Ok(refused_of(load_refusal(alloc, fault)?)),
    }
}

/// Publishes the load that a draft is.
pub(crate) fn publish(
    alloc: Global,
    catalogue: &mut Catalogue,
    by: u32,
    draft: Draft,
) -> Result<Outcome, AllocError>
    requires { HasGoodTree draft }
    ensures told { IfOk result (λ outcome. (snaps : Snaps) (hulls : Hulls) → Publishes by draft (state_of catalogue.old snaps hulls) (state_of catalogue.new snaps hulls) outcome) }
    ensures kept { (snaps : Snaps) (hulls : Hulls) → IsKept catalogue.old.entries snaps hulls → IsKept catalogue.new.entries snaps hulls }
{
    match prepare(alloc, draft) {
        Ok(load) => publish_load(alloc, catalogue, by, load),
        Err(fault) => Ok(refused_of(prepare_refusal(alloc, fault)?)),
    }
}
