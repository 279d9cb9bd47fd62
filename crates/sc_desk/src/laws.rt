//! What follows from the definitions alone. Each function has an empty body: its clause is the law.
ghost use Rattle.std.specs.Prelude.{List};
ghost use Rattle.sc_shelf.specs.Ticket.{Hull};
ghost use Rattle.sc_catalog.specs.declared.entry.Entry.{Entry as EntryRecord};
ghost use Rattle.sc_catalog.specs.Entries.{by, IsTightOf};
ghost use Rattle.sc_visit.specs.Visits.{Visitor, TakesTurns};

/// A hull that a pass could install it can install after any turns of its own.
pub fn hulls_stand()
    ensures { (owns : List (List EntryRecord)) (old new : Visitor EntryRecord) (hull : Hull) → TakesTurns by owns old new → IsTightOf old.seen hull →
        IsTightOf new.seen hull }
{}
