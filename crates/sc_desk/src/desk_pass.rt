ghost use Rattle.std.specs.Prelude.{◌≡◌, length};
ghost use Rattle.sc_turn.specs.Passes.{IsOutside};
ghost use Rattle.sc_visit.specs.Visits.{visitor_of};

use sc_catalog::Catalogue;
use sc_turn::Pass;
use std::marker::Model;

/// A pass of a catalogue's desk that is in no turn. Whoever is lent one takes turns by the four calls of this crate alone,
/// so nothing else happens in a turn. Contracts see it as a `Visitor`.
#[derive(Drop)]
pub struct DeskPass<'d> {
    pub(crate) pass: Pass<'d, Catalogue>,
}

impl<'d> Model for DeskPass<'d> {
    ghost use Rattle.std.specs.Coded.{codes};
    ghost use Rattle.sc_json.specs.contracts.tree.Json as e;
    ghost use Rattle.sc_catalog.specs.declared.entry.Entry.{Entry};
    ghost use Rattle.sc_turn.specs.Passes.{IsOutside};
    ghost use Rattle.sc_visit.specs.Visits.{Visitor, visitor_of};

    ghost Value = { Visitor Entry };

    ghost coded = { Prim.hlevel (codes, e.the_row.coded) };

    ghost view = { λ d. visitor_of d.pass };

    ghost invariant = { λ d. IsOutside d.pass };
}

impl<'d> DeskPass<'d> {
    /// The pass of a desk that is in no turn.
    pub fn of(pass: Pass<'d, Catalogue>) -> DeskPass<'d>
        requires { IsOutside pass }
        ensures { result ≡ visitor_of pass.entry }
    {
        DeskPass { pass }
    }

    /// The pass itself, which is in no turn.
    pub fn into_pass(self) -> Pass<'d, Catalogue>
        ensures outside { IsOutside result }
        ensures same { visitor_of result ≡ self.entry }
    {
        let DeskPass { pass } = self;
        pass
    }

    /// The number of the pass, from 1.
    pub fn number(&self) -> u32
        ensures { result ≡ self.now.number }
    {
        self.pass.number()
    }

    /// The length of the history that the pass has seen: the revision below which it is told nothing.
    pub fn seen(&self) -> u64
        ensures { result ≡ length self.now.seen }
    {
        self.pass.seen()
    }
}
