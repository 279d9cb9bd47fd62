//! What holds of the definitions that the contracts cite. The functions do nothing: each states a fact for the proofs
//! of other crates.
ghost use Rattle.std.specs.Prelude.{◌≡◌, ◌⊎◌, ℕ, List, IsUtf8};
ghost use Rattle.sc_decimal.specs.Number.{Number, IsDec};
ghost use Rattle.sc_decimal.specs.Literal.{literal_of};
ghost use Rattle.sc_json.specs.declared.tree.Json.{Json as Tree};
ghost use Rattle.sc_json.specs.declared.fault.JsonFault.{JsonFault};
ghost use Rattle.sc_json.specs.Compact.{compact};
ghost use Rattle.sc_json.specs.Faults.{JsonFaultOf};
ghost use Rattle.sc_json.specs.Good.{Good, IsAsSent};
ghost use Rattle.sc_json.specs.Spells.{Spells};

/// Bytes spell one good tree at most, and they are UTF-8.
pub fn one_tree()
    ensures one { (bytes : List ℕ) (a b : Tree) → Spells bytes a → Spells bytes b → a ≡ b }
    ensures utf8 { (bytes : List ℕ) (tree : Tree) → Spells bytes tree → IsUtf8 bytes }
{}

/// Bytes have one fault at most.
pub fn one_fault()
    ensures { (bytes : List ℕ) (f g : JsonFault) → JsonFaultOf bytes f → JsonFaultOf bytes g → f ≡ g }
{}

/// Bytes that have a fault spell no good tree.
pub fn faults_spell_nothing()
    ensures { (bytes : List ℕ) (fault : JsonFault) (tree : Tree) → JsonFaultOf bytes fault → Spells bytes tree → ⊥ }
{}

/// Bytes spell a good tree, or they have a fault.
pub fn a_tree_or_a_fault()
    ensures { (bytes : List ℕ) → ((tree : Tree) × Spells bytes tree) ⊎ ((fault : JsonFault) × JsonFaultOf bytes fault) }
{}

/// The compact text of a good tree spells it.
pub fn written_is_spelled()
    ensures { (tree : Tree) → Good tree → Spells (compact tree) tree }
{}

/// The canonical literal of a number is one of the grammar, which is read as that number.
pub fn canonical_literals()
    ensures { (n : Number) → IsDec n → IsAsSent (record { literal = literal_of n; dec = n }) }
{}
