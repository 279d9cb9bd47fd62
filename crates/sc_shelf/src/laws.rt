//! What follows from the definitions alone. Each function has an empty body: its clauses are the laws.
ghost use Rattle.std.specs.Prelude.{◌≡◌, ◌+◌, ℕ, List, [], length};
ghost use Rattle.sc_load.specs.declared.load.Load.TheVariants.{DropCollection};
ghost use Rattle.sc_history.specs.Content.{item_in};
ghost use Rattle.sc_history.specs.Changes.{Change};
ghost use Rattle.sc_history.specs.History.{replay};
ghost use Rattle.sc_history.specs.Refusals.{IsAllowed};
ghost use Rattle.sc_history.specs.Taken.{IsPast};
ghost use Rattle.sc_history.specs.Part.{Part};
ghost use Rattle.sc_history.specs.Touch.{ArePublished};
ghost use Rattle.sc_history.specs.Sound.{Stand};
ghost use Rattle.sc_shelf.specs.declared.change.PartChange.{PartChange};
ghost use Rattle.sc_shelf.specs.Changed.{AreChanged, AreChangesOf, AreWithout};
ghost use Rattle.sc_shelf.specs.Kept.{all_items};
ghost use Rattle.sc_shelf.specs.Loads.{AreChangesBy};

/// The changes that a load makes can be made of parts that stand, and then the parts are published: each is what the load
/// leaves of it.
pub fn changes_publish()
    ensures can { (past : List Change) (change : Change) (old : List Part) (changes : List PartChange) → IsPast past → IsAllowed (replay past) change →
        Stand past old → AreChangesBy past change old changes → AreChangesOf old changes }
    ensures published { (past : List Change) (change : Change) (old new : List Part) (changes : List PartChange) → IsPast past →
        IsAllowed (replay past) change → Stand past old → AreChangesBy past change old changes → AreChanged (length past + 1) changes old new →
        ArePublished past change old new }
{}

/// A load that drops a collection publishes the parts without those of the collection.
pub fn a_drop_publishes()
    ensures { (past : List Change) (id : List ℕ) (old new : List Part) → IsPast past → Stand past old →
        AreWithout id old new → ArePublished past (record { load = DropCollection id; come = [] }) old new }
{}

/// What is found by collection and id among the items of parts that stand is the content's item.
pub fn parts_have_what_is_found()
    ensures { (past : List Change) (parts : List Part) (collection id : List ℕ) → IsPast past → Stand past parts →
        item_in (all_items parts) collection id ≡ item_in (replay past).items collection id }
{}
