//! What holds of the definitions that the contracts cite. The functions do nothing: each states a fact for the proofs of
//! other crates.
ghost use Rattle.std.specs.Prelude.{◌≡◌, ◌≤ℤ◌, ℕ, ℤ, pos, neg_ℤ, List, Some, Ok, false};
ghost use Rattle.sc_decimal.specs.Number.{Number, IsDec};
ghost use Rattle.sc_decimal.specs.Literal.{literal_of};
ghost use Rattle.sc_decimal.specs.Value.{is_wide, number_of};
ghost use Rattle.sc_decimal.specs.Grid.{grid_of};
ghost use Rattle.sc_time.specs.Instant.{IsInstant};
ghost use Rattle.sc_time.specs.Reading.{instant_reading};
ghost use Rattle.sc_expr.specs.declared.expr.Expr.{Expr};
ghost use Rattle.sc_expr.specs.Filter.{IsFilter};
ghost use Rattle.sc_cqlwrite.specs.Tokens as tokens;
ghost use Rattle.sc_cqlwrite.specs.Tokens.{spelled};
ghost use Rattle.sc_cqlwrite.specs.Moment.{moment_text};
ghost use Rattle.sc_cqlwrite.specs.Coordinate.{coordinate_text};
ghost use Rattle.sc_cqlwrite.specs.Written.{tokens_of, written};
ghost use Rattle.sc_cqlwrite.specs.Spellable.{some_text_ends};
ghost use Rattle.sc_cqlback.specs.Read.{AreRead};

/// From its front on, what is written of a filter is read as the tokens that it was written of, each of its class and with
/// its bytes, and then ends.
pub fn written_is_read()
    ensures { (expr : Expr) → IsFilter expr → some_text_ends expr ≡ false → AreRead (written expr) 0 (tokens_of expr) }
{}

/// Two names, or two texts, that are written alike are one.
pub fn one_spelling()
    ensures names { (a b : List ℕ) → spelled (tokens.name a) ≡ spelled (tokens.name b) → a ≡ b }
    ensures texts { (a b : List ℕ) → spelled (tokens.text a) ≡ spelled (tokens.text b) → a ≡ b }
{}

/// What is written of a moment is read as the moment, of a number as the number, and of a coordinate as a number that lies
/// on the grid just there.
pub fn values_are_read()
    ensures moments { (at : ℤ) → IsInstant at → instant_reading (moment_text at) ≡ Ok at }
    ensures numbers { (n : Number) → IsDec n → (is_wide (literal_of n) ≡ false) × (number_of (literal_of n) ≡ n) }
    ensures coordinates { (steps : ℤ) → neg_ℤ (pos 3_600_000_000) ≤ℤ steps → steps ≤ℤ pos 3_600_000_000 → (is_wide (coordinate_text steps) ≡ false) × (grid_of (number_of (coordinate_text steps)) ≡ Some steps) }
{}
