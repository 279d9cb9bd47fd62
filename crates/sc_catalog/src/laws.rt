//! What follows from the definitions alone. Each function has an empty body: its clauses are the laws.
ghost use Rattle.std.specs.Prelude.{◌≡◌, ◌++◌, List, Some};
ghost use Rattle.sc_cut.specs.declared.name.PartName.{PartName as Name};
ghost use Rattle.sc_part.specs.Version.{Version};
ghost use Rattle.sc_history.specs.Changes.{Change};
ghost use Rattle.sc_history.specs.Views.{IsSnapshot, Snap, Stood};
ghost use Rattle.sc_shelf.specs.Ticket.{Hull, hull_at};
ghost use Rattle.sc_catalog.specs.declared.entry.Entry.{Entry as EntryRecord};
ghost use Rattle.sc_catalog.specs.Entries.{IsLookOf, IsSnapshotOf, IsTightOf, TellsOf, loads_of};

/// What was taken of a history stays what it is as entries come: a longer history is told by what tells its beginning, with
/// the changes of the later loads in front; a hull stays tight, and a snapshot stays one of an earlier revision.
pub fn views_stay_as_entries_come()
    ensures loads { (seen rest : List EntryRecord) → loads_of (seen ++ rest) ≡ loads_of rest ++ loads_of seen }
    ensures told { (seen rest : List EntryRecord) (past : List Change) → TellsOf (seen ++ rest) past →
        (later : List Change) × (before : List Change) × (past ≡ later ++ before) × TellsOf seen before }
    ensures hull { (seen rest : List EntryRecord) (hull : Hull) → IsTightOf seen hull → IsTightOf (seen ++ rest) hull }
    ensures snapshot { (seen rest : List EntryRecord) (snap : Snap) (past : List Change) → IsSnapshotOf seen snap → TellsOf (seen ++ rest) past →
        IsSnapshot past snap }
{}

/// The hull of a ticket is tight in the history that was looked at, and a snapshot of a history is one that some history had.
pub fn views_of_a_history()
    ensures hull { (entries : List EntryRecord) (name : Name) (ticket : Version) → IsLookOf entries name (Some ticket) →
        IsTightOf entries (hull_at ticket) }
    ensures stood { (entries : List EntryRecord) (snap : Snap) → IsSnapshotOf entries snap → Stood snap }
{}
