//! What follows from the definitions alone. Each function has an empty body: its clauses are the laws.
ghost use Rattle.std.specs.Prelude.{◌≡◌, ◌⊎◌, ◌↔◌, List, [], ◌∷◌, ◌++◌, Some, true};
ghost use Rattle.sc_grammar.specs.Grammar.{non};
ghost use Rattle.sc_grammar.specs.Classes.{In, firsts, nullable};
ghost use Rattle.sc_grammar.specs.declared.token.Class.{Class};
ghost use Rattle.sc_grammar.specs.declared.token.Token.{Token as TokenRecord};
ghost use Rattle.sc_cqlgrammar.specs.declared.rule.Rule.{Rule};
ghost use Rattle.sc_cqlgrammar.specs.Rules.{Items, IsAlternative};
ghost use Rattle.sc_cqlgrammar.specs.Table.{starts, is_empty, follows, predict};
ghost use Rattle.sc_cqlgrammar.specs.Reading.{AreFront, Derive, IsStart, Refuse, Takes, TakesAll};

/// The next token tells the alternative: it may begin that one alone, or come behind the rule where that one may be empty.
pub fn one_token_tells()
    ensures { (n : Rule) (c : Class) (items : Items) →
        (predict n c ≡ Some items) ↔ (IsAlternative n items × (In c (firsts starts is_empty items) ⊎ (nullable is_empty items ≡ true) × In c (follows n))) }
{}

/// What the machine takes is a front of the rule.
pub fn what_is_taken_is_a_front()
    ensures { (n : Rule) (tokens : List TokenRecord) (items : Items) → TakesAll (non n ∷ []) tokens items → AreFront (non n ∷ []) tokens }
{}

/// What the machine takes and the first token that it refuses are no front of the rule.
pub fn what_is_refused_is_no_front()
    ensures { (n : Rule) (tokens : List TokenRecord) (items : Items) (token : TokenRecord) →
        TakesAll (non n ∷ []) tokens items → Refuse items token → AreFront (non n ∷ []) (tokens ++ token ∷ []) → ⊥ }
{}

/// The machine comes to its end by just the tokens that the rule derives.
pub fn what_is_taken_whole_is_derived()
    ensures { (n : Rule) (tokens : List TokenRecord) → IsStart n → Derive (non n ∷ []) tokens ↔ TakesAll (non n ∷ []) tokens [] }
{}
