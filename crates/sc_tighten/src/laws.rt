//! What follows from the definitions alone. Each function has an empty body: its clauses are the laws.
ghost use Rattle.std.specs.Prelude.{◌≡◌, ◌<◌, ℕ, [], List};
ghost use Rattle.std.specs.List.{All};
ghost use Rattle.sc_catalog.specs.declared.entry.Entry.{Entry as EntryRecord};
ghost use Rattle.sc_catalog.specs.Entries.{by};
ghost use Rattle.sc_visit.specs.Visits.{TakesTurns};
ghost use Rattle.sc_notice.specs.Callers.{told_in};
ghost use Rattle.sc_tighten.specs.declared.count.WorkCount.{WorkCount as WorkCountData};
ghost use Rattle.sc_tighten.specs.declared.count.WorkDone.{WorkDone as WorkDoneData};
ghost use Rattle.sc_tighten.specs.declared.count.WorkDone.TheVariants.{Done, Stopped};
ghost use Rattle.sc_tighten.specs.Work.{Tightener, Works, total};

/// The pass at the desk takes turns that add no entry of its own, and the pass of the notices tells nothing and stays that of
/// its queue.
pub fn work_only_hears_and_looks()
    ensures desk { (turns : ℕ) (done : WorkDoneData) (old new : Tightener) → Works turns done old new →
        (owns : List (List EntryRecord)) × All (λ own. own ≡ []) owns × TakesTurns by owns old.desk new.desk }
    ensures queue { (turns : ℕ) (done : WorkDoneData) (old new : Tightener) → Works turns done old new →
        (new.notices.of ≡ old.notices.of) × (new.notices.shares ≡ old.notices.shares) }
    ensures told { (turns : ℕ) (done : WorkDoneData) (old new : Tightener) → Works turns done old new →
        told_in new.notices.calls ≡ told_in old.notices.calls }
{}

/// Each turn that heard no `Stop` counts once.
pub fn turns_count_once()
    ensures done { (turns : ℕ) (count : WorkCountData) (old new : Tightener) → Works turns (Done count) old new → total count ≡ turns }
    ensures stopped { (turns : ℕ) (count : WorkCountData) (old new : Tightener) → Works turns (Stopped count) old new → total count < turns }
{}
