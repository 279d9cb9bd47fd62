//! What follows from the definitions alone. Each function has an empty body: its clause is the law.
ghost use Rattle.std.specs.Prelude.{◌≡◌, true, List};
ghost use Rattle.sc_expr.specs.Query.{Asked};
ghost use Rattle.sc_history.specs.Part.{Part};
ghost use Rattle.sc_walk.specs.Walk.{AreNarrower, IsNarrower, is_opened};

/// Bounds that lie within others open no part that the others leave closed, for the same items.
pub fn narrower_bounds_open_less()
    ensures { (asked : Asked) (narrows wides : List Part) (narrow wide : Part) → AreNarrower narrows wides → IsNarrower narrow wide → is_opened asked narrows narrow ≡ true → is_opened asked wides wide ≡ true }
{}
