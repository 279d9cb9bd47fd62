//! What follows from the definitions alone. Each function has an empty body: its clauses are the laws.
ghost use Rattle.std.specs.Prelude.{◌≡◌, ◌⊎◌};
ghost use Rattle.sc_json.specs.declared.tree.Json.{Json};
ghost use Rattle.sc_expr.specs.declared.expr.Expr.{Expr};
ghost use Rattle.sc_expr.specs.declared.fault.CqlFault.{CqlFault};
ghost use Rattle.sc_expr.specs.declared.fault.CqlFault.TheVariants.{OutOfMemory};
ghost use Rattle.sc_cqljson.specs.Filters.{IsCqlTree, IsTreeFault};

/// A tree has one answer, but for want of memory: it is one filter at most, then it has no fault, and else it has one at most.
pub fn one_answer()
    ensures filter { (tree : Json) (a b : Expr) → IsCqlTree tree a → IsCqlTree tree b → a ≡ b }
    ensures no_fault { (tree : Json) (filter : Expr) (fault : CqlFault) → IsCqlTree tree filter → IsTreeFault fault tree → fault ≡ OutOfMemory }
    ensures fault { (tree : Json) (a b : CqlFault) → IsTreeFault a tree → IsTreeFault b tree → (a ≡ b) ⊎ (a ≡ OutOfMemory) ⊎ (b ≡ OutOfMemory) }
{}
