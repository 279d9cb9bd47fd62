ghost use Rattle.std.specs.Prelude.{◌≡◌, MatchResult, IfOk, false};
ghost use Rattle.sc_expr.specs.declared.expr.Expr.{Expr};
ghost use Rattle.sc_cqlread.specs.Filters.{IsCqlText};
ghost use Rattle.sc_cqlwrite.specs.Written.{written};
ghost use Rattle.sc_cqlwrite.specs.Spellable.{some_text_ends};
ghost use Rattle.sc_cqlwrite.specs.Answer.{IsFault};

use sc_base::Text;
use sc_cqlread::laws::one_answer;
use sc_cqlwrite::SpellFault;
use sc_expr::Filter;
use std::alloc::Global;

/// That a text which is this filter is no other. Takes no time.
fn no_other_filter(text: &Text, filter: &Filter)
    requires { IsCqlText text.now filter.now }
    ensures { (other : Expr) → IsCqlText text.now other → other ≡ filter.now }
{
    one_answer();
}

/// Writes a filter as a text of CQL2 (OGC 21-065r2, Annex B), which is read as this filter and as no other.
///
/// Words are in upper case, names in double quotes, numbers canonical literals, moments `TIMESTAMP('..')` in UTC, and
/// coordinates decimal texts of degrees. A quote within a name is doubled, and one within a text stands behind a
/// backslash. One blank stands between tokens, but none behind a function word and `(`, nor before `)` and `,`. A member
/// of And, Or or Not that is one of these itself stands in parentheses, and no other does. A geometry of one part is a
/// `POINT`, `LINESTRING` or `POLYGON`, any other a `GEOMETRYCOLLECTION` of its points, lines and areas in this order.
///
/// It is `NoSpelling` exactly where a text or a pattern of the filter ends in a backslash, since no text in quotes does, and
/// else `OutOfMemory` where memory ran out.
#[tactic(auto, using(crate::proofs::Again::read_again))]
pub fn write_text(alloc: Global, filter: &Filter) -> Result<Text, SpellFault>
    ensures text { MatchResult result (λ text. (text ≡ written filter.now) × (some_text_ends filter.now ≡ false)) (λ fault. IsFault fault filter.now) }
    ensures read { IfOk result (λ text. IsCqlText text filter.now) }
    ensures alone { IfOk result (λ text. (other : Expr) → IsCqlText text other → other ≡ filter.now) }
{
    let text = sc_cqlwrite::write_text(alloc, filter)?;
    // These take no time: they tell what every filter keeps, and that a text is UTF-8.
    filter.expr();
    text.bytes();
    no_other_filter(&text, filter);
    Ok(text)
}
