//! What follows from the definitions alone. Each function's clauses are the laws: its body is empty, or cites another law.
ghost use Rattle.std.specs.Prelude.{◌≡◌, ◌≢◌, ◌⊎◌, ◌≤◌, ◌++◌, ◌∷◌, [], ℕ, List, Result, Err};
ghost use Rattle.sc_geom.specs.declared.point.Pt.{Pt};
ghost use Rattle.sc_geom.specs.Shapes.{Shapes};
ghost use Rattle.sc_wkt.specs.declared.fault.WktFault.{WktFault};
ghost use Rattle.sc_wkt.specs.declared.fault.WktFault.TheVariants as wkt_faults;
ghost use Rattle.sc_wkt.specs.Answer.{WktAnswers};
ghost use Rattle.sc_expr.specs.declared.expr.Expr.{Expr};
ghost use Rattle.sc_expr.specs.declared.fault.CqlFault.{CqlFault};
ghost use Rattle.sc_expr.specs.declared.fault.CqlFault.TheVariants as faults;
ghost use Rattle.sc_expr.specs.Measure.{depth, nodes};
ghost use Rattle.sc_grammar.specs.declared.token.Class.TheVariants as classes;
ghost use Rattle.sc_grammar.specs.declared.token.Token.{Token as TokenRecord};
ghost use Rattle.sc_cqlread.specs.Tokens.{readable, AreTokens};
ghost use Rattle.sc_cqlread.specs.Nesting.{deepest};
ghost use Rattle.sc_cqlread.specs.Filters.{IsExpr, IsCqlText};
ghost use Rattle.sc_cqlread.specs.Faults.{IsFault};
ghost use Rattle.sc_forms.specs.Forms.{Means};
ghost use Rattle.sc_forms.specs.Forms as forms;

use sc_cqlread::laws::one_answer;

/// Each text has a geometry at its front, of so many positions at most, or a fault that isn't want of memory.
pub fn geometries_have_answers()
    ensures { (bytes : List ℕ) (most : ℕ) → (answer : Result (Shapes Pt × ℕ) WktFault) × WktAnswers bytes most answer × (answer ≢ Err wkt_faults.OutOfMemory) }
{}

/// Each text is a filter, or has a fault that isn't want of memory.
pub fn filters_have_answers()
    ensures { (text : List ℕ) → ((filter : Expr) × IsCqlText text filter) ⊎ ((fault : CqlFault) × (fault ≢ faults.OutOfMemory) × IsFault text fault) }
{}

/// The tokens of a filter mean one expression at most.
pub fn one_meaning()
    ensures { (chars : List ℕ) (tokens : List TokenRecord) (a b : Expr) → Means chars forms.filter tokens (a ∷ []) → Means chars forms.filter tokens (b ∷ []) → a ≡ b }
{}

/// A text whose tokens mean an expression by the rules of the language is that expression, where its parentheses nest no
/// deeper than 64. So it is that filter and no other, and has no fault but want of memory, where the expression is within the
/// limits of filters.
///
/// A chain of two members or more is their AND or OR in their order, and one alone is itself; what stands in parentheses
/// means what it means without; each NOT within a test is that of the test without it; a box is the geometry of its
/// rectangles, and a DATE the midnight at which its day begins.
pub fn meanings_are_read()
    ensures expr { (text : List ℕ) (tokens : List TokenRecord) (end : TokenRecord) (expr : Expr) → AreTokens text (tokens ++ end ∷ []) → end.class ≡ classes.End → deepest (tokens ++ end ∷ []) ≤ 64 →
        Means (readable text) forms.filter tokens (expr ∷ []) → IsExpr text expr }
    ensures filter { (text : List ℕ) (tokens : List TokenRecord) (end : TokenRecord) (expr : Expr) → AreTokens text (tokens ++ end ∷ []) → end.class ≡ classes.End → deepest (tokens ++ end ∷ []) ≤ 64 →
        Means (readable text) forms.filter tokens (expr ∷ []) → depth expr ≤ 24 → nodes expr ≤ 1024 → IsCqlText text expr }
    ensures only { (text : List ℕ) (tokens : List TokenRecord) (end : TokenRecord) (expr other : Expr) → AreTokens text (tokens ++ end ∷ []) → end.class ≡ classes.End → deepest (tokens ++ end ∷ []) ≤ 64 →
        Means (readable text) forms.filter tokens (expr ∷ []) → depth expr ≤ 24 → nodes expr ≤ 1024 → IsCqlText text other → other ≡ expr }
    ensures no_fault { (text : List ℕ) (tokens : List TokenRecord) (end : TokenRecord) (expr : Expr) (fault : CqlFault) → AreTokens text (tokens ++ end ∷ []) → end.class ≡ classes.End → deepest (tokens ++ end ∷ []) ≤ 64 →
        Means (readable text) forms.filter tokens (expr ∷ []) → depth expr ≤ 24 → nodes expr ≤ 1024 → IsFault text fault → fault ≡ faults.OutOfMemory }
{
    one_answer();
}
