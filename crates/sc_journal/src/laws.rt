ghost use Rattle.std.specs.Prelude.{◌≡◌, List, ℕ};
ghost use Rattle.sc_journal.specs.Format.{HasRecords, IsBroken};

/// A file has one list of records at most.
pub fn one_list()
    ensures { (file : List ℕ) (some others : List (List ℕ)) → HasRecords file some → HasRecords file others → some ≡ others }
{}

/// A file with a bad record isn't a journal's, and it has one first bad record.
pub fn one_bad_record()
    ensures whole { (file : List ℕ) (some others : List (List ℕ)) → HasRecords file some → IsBroken file others → ⊥ }
    ensures one { (file : List ℕ) (some others : List (List ℕ)) → IsBroken file some → IsBroken file others → some ≡ others }
{}
