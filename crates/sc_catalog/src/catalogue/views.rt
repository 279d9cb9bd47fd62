//! What is taken out of a catalogue and outlives its changes, and hulls that come back to it.
ghost use Rattle.std.specs.Prelude.{◌≡◌, length, option_map, IfOk, IfSome, OnErr, OnOk};
ghost use Rattle.sc_history.specs.Installs.{answer};
ghost use Rattle.sc_history.specs.Part.{lookup};
ghost use Rattle.sc_shelf.specs.Ticket.{Hull, hull_at, version_of};
ghost use Rattle.sc_catalog.specs.Entries.{IsInstallOf, IsLookOf, IsSnapshotOf, IsTightOf};
ghost use Rattle.sc_catalog.specs.Views.{IsInstalled};

use crate::catalogue::Catalogue;
use sc_cut::PartName;
use sc_history::Installed;
use sc_shelf::{Snapshot, Ticket, Tight};
use std::alloc::{AllocError, Global};

impl Catalogue {
    /// The catalogue as it is: its revision, its collections, and its parts with their bounds. One pointer to each of the two
    /// lists is copied, whatever they hold.
    pub fn snapshot(&self, _alloc: Global) -> Result<Snapshot, AllocError>
        ensures taken { IfOk result (λ snap. snap ≡ record { revision = length self.now.entries; collections = self.now.collections; parts = self.now.parts }) }
        ensures stands { IfOk result (IsSnapshotOf self.now.entries) }
    {
        Ok(Snapshot::of(
            self.history.len() as u64,
            self.collections.share()?,
            self.parts.share()?,
        ))
    }

    /// A ticket of the part with the name: its stamp, and the items that it has now. None exactly where there is no such part.
    /// The ticket shares the part's version.
    pub fn look(&self, _alloc: Global, name: &PartName) -> Result<Option<Ticket>, AllocError>
        ensures taken { IfOk result (λ ticket. ticket ≡ option_map version_of (lookup name.now self.now.parts)) }
        ensures stands { IfOk result (IsLookOf self.now.entries name.now) }
        ensures hull { IfOk result (λ ticket. IfSome ticket (λ ticket. IsTightOf self.now.entries (hull_at ticket))) }
    {
        self.parts.look(name)
    }

    /// Installs the hull of a ticket that was taken of this catalogue, now or earlier. The part's bounds become the hull, or
    /// what lies within the hull and the additions since, or they stay, as the answer tells; nothing else changes, and no
    /// bounds become wider. Want of memory leaves the catalogue as it was. Hulls that could be installed still can.
    pub fn install(&mut self, alloc: Global, tight: &Tight) -> Result<Installed, AllocError>
        requires { IsTightOf self.old.entries tight.now }
        ensures answer { IfOk result (λ told. told ≡ answer tight.now.stamp (lookup tight.now.name self.old.parts)) }
        ensures told { IfOk result (IsInstallOf self.old.entries tight.now) }
        ensures ok { OnOk result (IsInstalled tight.now self.old self.new) }
        ensures err { OnErr result (self.new ≡ self.old) }
        ensures hulls { (hull : Hull) → IsTightOf self.old.entries hull → IsTightOf self.new.entries hull }
    {
        let answer = self.parts.install_answer(tight);
        self.parts = self.parts.with_install(alloc, tight)?;
        Ok(answer)
    }
}
