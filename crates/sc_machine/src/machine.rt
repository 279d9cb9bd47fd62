ghost use Rattle.std.specs.Prelude.{◌≡◌, IfOk, OnOk};
ghost use Rattle.sc_script.specs.Step.{HasGoodTrees};
ghost use Rattle.sc_machine.specs.State.{nothing};
ghost use Rattle.sc_machine.specs.Machine.{Counts, Takes};

use crate::installs::take_install;
use crate::loads::publish;
use crate::looks::{take_look, take_snapshot};
use crate::searches::take_search;
use sc_base::Text;
use sc_catalog::{Catalogue, Snapshot, Tight};
use sc_outcome::Outcome;
use sc_outside::Steps;
use sc_script::Step;
use std::alloc::{AllocError, Global};
use std::collections::BTreeMap;
use std::marker::Model;
use std::sync::ledger::Ledger;

/// The machine of a script: a catalogue, and the snapshots and tickets that have a name. Contracts see what it knows.
#[derive(Drop)]
pub struct Machine {
    catalogue: Catalogue,
    snapshots: BTreeMap<Text, Snapshot>,
    /// The tickets are tightened as they are taken, which takes no memory and reads nothing.
    tickets: BTreeMap<Text, Tight>,
}

impl Model for Machine {
    ghost use Rattle.std.specs.Coded.{codes};
    ghost use Rattle.sc_json.specs.contracts.tree.Json as e;
    ghost use Rattle.sc_machine.specs.State.{State};

    ghost Value = { State };

    ghost coded = { Prim.hlevel (codes, e.the_row.coded) };

    ghost use Rattle.sc_machine.specs.Inside.{IsKept, state_of};

    ghost view = { λ m. state_of m.catalogue m.snapshots m.tickets };

    ghost invariant = { λ m. IsKept m.catalogue.entries m.snapshots m.tickets };
}

impl Machine {
    /// A machine that has taken no step.
    pub fn new(alloc: Global) -> Result<Machine, AllocError>
        ensures { IfOk result (λ machine. machine ≡ nothing) }
    {
        Ok(Machine {
            catalogue: Catalogue::new(alloc)?,
            snapshots: BTreeMap::new(alloc),
            tickets: BTreeMap::new(alloc),
        })
    }

    /// Takes a step, whose trees are good as those of every step that is read, and gives what it gives. A search counts
    /// its steps, as `answer` of `sc_walk` does. Want of memory leaves
    /// some machine: the step may be taken or not.
    pub fn take<L: Ledger>(
        &mut self,
        alloc: Global,
        step: Step,
        steps: &mut Steps<L>,
    ) -> Result<Outcome, AllocError>
        requires { HasGoodTrees step }
        ensures taken { IfOk result (Takes step self.old self.new) }
        ensures counts { OnOk result (Counts step self.old steps.old steps.new) }
    {
        match step {
            Step::Publish { by, load } => publish(alloc, &mut self.catalogue, by, load),
            Step::Snapshot { name } => {
                take_snapshot(alloc, &self.catalogue, &mut self.snapshots, name)
            }
            Step::Look {
                name,
                collection,
                key,
            } => take_look(
                alloc,
                &self.catalogue,
                &mut self.tickets,
                name,
                collection,
                key,
            ),
            Step::Install { ticket } => {
                take_install(alloc, &mut self.catalogue, &self.tickets, ticket)
            }
            Step::Search { on, query } => { take_search(alloc, &self.snapshots, on, &query, steps) }
        }
    }
}
