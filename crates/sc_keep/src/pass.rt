ghost use Rattle.std.specs.Prelude.{◌≡◌, length};
ghost use Rattle.sc_turn.specs.Passes.{IsOutside};
ghost use Rattle.sc_visit.specs.Visits.{visitor_of};

use sc_kept::{Disk, Kept};
use sc_turn::Pass;
use std::marker::Model;

/// A pass at the desk of a kept catalogue that is in no turn. Whoever is lent one takes turns by the calls of this crate
/// alone. Contracts see it as a `Visitor`.
#[derive(Drop)]
pub struct KeptPass<'d, D: Disk> {
    pub(crate) pass: Pass<'d, Kept<D>>,
}

impl<'d, D: Disk> Model for KeptPass<'d, D> {
    ghost use Rattle.std.specs.Coded.{codes};
    ghost use Rattle.sc_json.specs.contracts.tree.Json as e;
    ghost use Rattle.sc_catalog.specs.declared.entry.Entry.{Entry};
    ghost use Rattle.sc_turn.specs.Passes.{IsOutside};
    ghost use Rattle.sc_visit.specs.Visits.{Visitor, visitor_of};

    ghost Value = { Visitor Entry };

    ghost coded = { Prim.hlevel (codes, e.the_row.coded) };

    ghost view = { λ k. visitor_of k.pass };

    ghost invariant = { λ k. IsOutside k.pass };
}

impl<'d, D: Disk> KeptPass<'d, D> {
    /// The pass of a desk that is in no turn.
    pub fn of(pass: Pass<'d, Kept<D>>) -> KeptPass<'d, D>
        requires { IsOutside pass }
        ensures { result ≡ visitor_of pass.entry }
    {
        KeptPass { pass }
    }

    /// The pass itself, which is in no turn.
    pub fn into_pass(self) -> Pass<'d, Kept<D>>
        ensures outside { IsOutside result }
        ensures same { visitor_of result ≡ self.entry }
    {
        let KeptPass { pass } = self;
        pass
    }

    /// The number of the pass, from 1.
    pub fn number(&self) -> u32
        ensures { result ≡ self.now.number }
    {
        self.pass.number()
    }

    /// The length of the history that the pass has seen.
    pub fn seen(&self) -> u64
        ensures { result ≡ length self.now.seen }
    {
        self.pass.seen()
    }
}
