ghost use Rattle.std.specs.Prelude.{◌≡◌};

use sc_shelf::KeptPart;
use std::marker::Model;

/// A part that a search may have to open. Contracts see it as the part.
#[derive(Drop)]
pub(crate) struct Candidate<'a> {
    part: &'a KeptPart,
}

impl<'a> Model for Candidate<'a> {
    ghost use Rattle.sc_history.specs.Part.{Part};
    ghost use Rattle.sc_shelf.specs.contracts.kept.KeptPart as kept;

    ghost Value = { Part };

    ghost coded = { kept.the_row.coded };

    ghost view = { λ c. c.part.now };
}

impl<'a> Candidate<'a> {
    /// The part as a candidate.
    pub(crate) fn of(part: &'a KeptPart) -> Candidate<'a>
        ensures { result ≡ part.now }
    {
        Candidate { part }
    }

    /// The part.
    pub(crate) fn part(&self) -> &KeptPart
        ensures { result.now ≡ self.now }
    {
        self.part
    }
}
