//! What follows from the definitions alone. Each function has an empty body: its clause is the law.
ghost use Rattle.std.specs.Prelude.{◌≡◌, ℕ, List};
ghost use Rattle.sc_words.specs.Asks.{AreServeWords};
ghost use Rattle.sc_words.specs.declared.command.Serving.{Serving as ServingRecord};

#[tactic(auto, using(crate::proofs::Asking::one_number))]
/// Words ask for one number of workers at most.
pub fn one_number_of_workers()
    ensures { (words : List (List ℕ)) (a b : ServingRecord) → AreServeWords words a → AreServeWords words b → a.workers ≡ b.workers }
{}
