//! What follows from the definitions alone. The functions do nothing: each has one law as its contract.
ghost use Rattle.std.specs.Prelude.{ℕ, ◌≤◌, List, length, drop, Bool, IsUtf8};
ghost use Rattle.sc_decimal.specs.Number.{Number};
ghost use Rattle.sc_geom.specs.Rects.{Answers};
ghost use Rattle.sc_grammar.specs.declared.token.Token.{Token as TokenRecord};
ghost use Rattle.sc_grammar.specs.Words.{token_at, IsFormedClass};
ghost use Rattle.sc_expr.specs.declared.expr.Expr.{Expr};
ghost use Rattle.sc_cqlvalue.specs.declared.state.State.{State};
ghost use Rattle.sc_cqlvalue.specs.Boxes.{rects_of};
ghost use Rattle.sc_cqlvalue.specs.Readable.{ReadsOn};
ghost use Rattle.sc_cqlvalue.specs.Whole.{Drawn, Leave, IsLeft};

/// A whole text of a filter leaves one expression, and nothing else stands ready, whatever its geometries are.
pub fn one_expression_is_left()
    ensures { (drawn : Drawn) (text : List ℕ) (tokens : List TokenRecord) (s : State) → Leave drawn text tokens s → (expr : Expr) × IsLeft expr s }
{}

/// A token of a text in UTF-8 is the name, the text or the number that its class says, and behind it the text is UTF-8 again:
/// so of literals only numbers that are too wide, and texts of TIMESTAMP and DATE that are no instant and no date, can't be
/// read.
pub fn tokens_are_readable()
    ensures { (text : List ℕ) (is_whole : Bool) (at : ℕ) → at ≤ length text → IsUtf8 (drop at text) → IsFormedClass (token_at text is_whole at).class → ReadsOn text (token_at text is_whole at) }
{}

/// The rectangles of a box are those of a bounding box of RFC 7946, and none exactly where it has none.
pub fn boxes_are_bounding_boxes()
    ensures { (numbers : List Number) → Answers numbers (rects_of numbers) }
{}
