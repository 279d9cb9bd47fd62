//! What follows from the definitions alone. Each function has an empty body: its clauses are the laws.
ghost use Rattle.std.specs.Prelude.{◌≡◌, ◌≢◌, ◌⊎◌, ◌≤◌, ℕ, List};
ghost use Rattle.sc_expr.specs.declared.expr.Expr.{Expr};
ghost use Rattle.sc_expr.specs.Form.{IsFormed};
ghost use Rattle.sc_expr.specs.Measure.{depth, nodes};
ghost use Rattle.sc_expr.specs.declared.fault.CqlFault.{CqlFault};
ghost use Rattle.sc_expr.specs.declared.fault.CqlFault.TheVariants.{OutOfMemory};
ghost use Rattle.sc_cqlread.specs.Filters.{IsExpr, IsCqlText};
ghost use Rattle.sc_cqlread.specs.Faults.{IsFault};

/// A text has one answer, but for want of memory: it is one filter at most, then it has no fault, and else it has one at most.
pub fn one_answer()
    ensures filter { (text : List ℕ) (a b : Expr) → IsCqlText text a → IsCqlText text b → a ≡ b }
    ensures no_fault { (text : List ℕ) (filter : Expr) (fault : CqlFault) → IsCqlText text filter → IsFault text fault → fault ≡ OutOfMemory }
    ensures fault { (text : List ℕ) (a b : CqlFault) → IsFault text a → IsFault text b → (a ≡ b) ⊎ (a ≡ OutOfMemory) ⊎ (b ≡ OutOfMemory) }
{}

/// Each text is an expression that is formed and within the limits of a filter, or has a fault other than want of memory.
pub fn some_answer()
    ensures { (text : List ℕ) →
        ((expr : Expr) × IsExpr text expr × IsFormed expr × (depth expr ≤ 24) × (nodes expr ≤ 1024)) ⊎
        ((fault : CqlFault) × (fault ≢ OutOfMemory) × IsFault text fault) }
{}
