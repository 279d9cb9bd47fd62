//! What follows from the definitions alone. Each function has an empty body: its clause is the law.
ghost use Rattle.std.specs.Prelude.{◌≡◌, ◌⊎◌, ℕ, List, Result, Ok, Err};
ghost use Rattle.sc_sort.specs.declared.key.Key.{Key};
ghost use Rattle.sc_sort.specs.Keys.{Keys};
ghost use Rattle.sc_token.specs.declared.fault.TokenFault.{TokenFault};
ghost use Rattle.sc_token.specs.declared.fault.TokenFault.TheVariants.{OutOfMemory};
ghost use Rattle.sc_token.specs.Token.{token_of};
ghost use Rattle.sc_token.specs.Fits.{FitsSort};
ghost use Rattle.sc_token.specs.Reading.{Answers};

/// Key lists that fit a sort and have one token are one.
pub fn one_token()
    ensures { (sort : List Key) (one other : Keys) → FitsSort sort one → FitsSort sort other → token_of one ≡ token_of other → one ≡ other }
{}

/// The token of a key list that fits a sort is read as that key list.
pub fn written_and_read()
    ensures { (sort : List Key) (keys : Keys) (result : Result Keys TokenFault) → FitsSort sort keys → Answers sort (token_of keys) result → (result ≡ Err OutOfMemory) ⊎ (result ≡ Ok keys) }
{}

/// A text that is read as a key list is the token of it.
pub fn read_and_written()
    ensures { (sort : List Key) (keys : Keys) (text : List ℕ) → Answers sort text (Ok keys) → token_of keys ≡ text }
{}

/// A text has one answer under a sort: one key list, or one fault.
pub fn one_answer()
    ensures { (sort : List Key) (text : List ℕ) (one other : Result Keys TokenFault) → Answers sort text one → Answers sort text other → (one ≡ Err OutOfMemory) ⊎ ((other ≡ Err OutOfMemory) ⊎ (one ≡ other)) }
{}
