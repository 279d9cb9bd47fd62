//! What holds of the definitions that the contracts cite. The functions do nothing: each states a fact for the proofs of
//! other crates.
ghost use Rattle.std.specs.Prelude.{◌≡◌, ◌≤◌, ℕ, List, Bool, length};
ghost use Rattle.sc_grammar.specs.declared.lexeme.Kind.{Kind};
ghost use Rattle.sc_grammar.specs.Lexing.{lexeme_at};
ghost use Rattle.sc_grammar.specs.Tokens.{IsToken, IsNext};

/// What is told at a place is the longest token that can be formed there.
pub fn longest_token()
    ensures { (text : List ℕ) (is_whole : Bool) (at : ℕ) → at ≤ length text → IsNext text is_whole at (lexeme_at text is_whole at) }
{}

/// Bytes are a token of one kind at most.
pub fn one_kind()
    ensures { (bytes : List ℕ) (a b : Kind) → IsToken a bytes → IsToken b bytes → a ≡ b }
{}
