use sc_base::Text;
use sc_bounds::Bounds;
use sc_page::Page;

/// What a step of a script gives.
#[derive(Drop)]
pub enum Outcome {
    /// The history has this length: after a load, or at a snapshot.
    Revision { revision: u64 },
    /// The part that was looked at is there: the last load that changed its items made this revision.
    Stamp { stamp: u64 },
    /// The part that was looked at isn't there.
    Gone,
    /// Nothing had changed the part since the look: its bounds are the hull now.
    Exact { bounds: Bounds },
    /// The part had changed since the look: these are its bounds now.
    Joined { bounds: Bounds },
    /// The part had changed since the look, and its additions are kept from this revision on only: its bounds stay.
    TooOld { kept_from: u64 },
    /// The part of the ticket isn't there any more.
    NotThere,
    /// The page of a search over the snapshot of this revision.
    Found { revision: u64, page: Page },
    /// The step was refused by the fault of this name, and this is told about it.
    Refused { name: Text, detail: Text },
}
