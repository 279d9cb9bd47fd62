use sc_catalog::Catalogue;
use sc_journal::{Disk, Journal, Sealed};
use std::collections::VecDeque;
use std::marker::Model;

/// A catalogue with the journal of its history on a disk. What couldn't be stored yet waits in a backlog, and is stored before
/// anything later. Contracts see it as the three.
#[derive(Drop)]
pub struct Kept<D: Disk> {
    pub(crate) catalogue: Catalogue,
    pub(crate) journal: Journal<D>,
    pub(crate) backlog: VecDeque<Sealed>,
    // The bytes of the journal's records with the backlog.
    pub(crate) size: u64,
}

impl<D: Disk> Model for Kept<D> {
    ghost use Rattle.std.specs.Coded.{codes};
    ghost use Rattle.sc_json.specs.contracts.tree.Json as e;
    ghost use Rattle.sc_kept.specs.Keeping.{Keeping};

    ghost Value = { Keeping D };

    ghost coded = { Prim.hlevel (codes, e.the_row.coded) };

    ghost use Rattle.sc_kept.specs.Keeping.{IsKeeping};

    ghost view = { λ k. record { catalogue = k.catalogue; journal = k.journal; backlog = k.backlog.items } };

    ghost invariant = { λ k. IsKeeping D.tells D.may_leave D.faults k.catalogue.entries k.journal k.backlog.items k.size };
}

impl<D: Disk> Kept<D> {
    ghost use Rattle.std.specs.Prelude.{◌≡◌, List, ℕ, [], length};
    ghost use Rattle.sc_history.specs.Sound.{Sound};
    ghost use Rattle.sc_catalog.specs.Entries.{loads_of};
    ghost use Rattle.sc_kept.specs.Keeping.{HasBeginning, IsStoredTo, IsSure};

    /// The catalogue, with all loads that it took, stored or not.
    pub fn catalogue(&self) -> &Catalogue
        ensures { result.now ≡ self.now.catalogue }
    {
        &self.catalogue
    }

    /// The number of the history's loads that are stored. The other clauses are what every kept catalogue keeps: the rest of
    /// the history is the backlog; a crash now leaves a file that has at least the stored loads, and no others than those of
    /// the history, in its order; a disk that never fails leaves no backlog.
    pub fn stored(&self) -> u64
        ensures count { result ≡ self.now.journal.count }
        ensures kept { IsStoredTo D.tells D.may_leave self.now.catalogue.entries self.now.journal self.now.backlog }
        ensures crash { D.tells self.now.journal.disk → (file : List ℕ) → D.may_leave self.now.journal.disk file → HasBeginning self.now.catalogue.entries result file }
        ensures sure { IsSure D.faults → self.now.backlog ≡ [] }
    {
        self.journal.count()
    }

    /// The disk. What waits in the backlog is lost.
    pub fn into_disk(self) -> D
        ensures { result ≡ self.journal.disk }
    {
        let Kept { journal, .. } = self;
        journal.into_disk()
    }
}
