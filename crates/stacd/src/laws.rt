ghost use Rattle.std.specs.Prelude.{◌≡◌, ℕ, List};
ghost use Rattle.sc_item.specs.Feature.{Feature};
ghost use Rattle.stacd.specs.Lines.{AreItems, IsFirstBad};
ghost use Rattle.stacd.specs.Page.{IsAnswer};

/// Lines with a first bad one aren't items, so a call that ends on a bad line could have ended in no page.
pub fn bad_or_good()
    ensures { (lines : List (List ℕ)) (n : ℕ) (items : List Feature) → IsFirstBad lines n → AreItems lines items → ⊥ }
{}

/// Lines have at most one first bad one.
pub fn one_bad_line()
    ensures { (lines : List (List ℕ)) (n m : ℕ) → IsFirstBad lines n → IsFirstBad lines m → n ≡ m }
{}

/// Lines have at most one page.
pub fn one_answer()
    ensures { (lines : List (List ℕ)) (limit : ℕ) (a b : List ℕ) → IsAnswer lines limit a → IsAnswer lines limit b → a ≡ b }
{}
