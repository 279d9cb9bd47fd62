ghost use Rattle.std.specs.Prelude.{◌≡◌, MatchResult, false};
ghost use Rattle.sc_cqlwrite.specs.Written.{written};
ghost use Rattle.sc_cqlwrite.specs.Spellable.{some_text_ends};
ghost use Rattle.sc_cqlwrite.specs.Answer.{IsFault};

use crate::expressions::push_expr;
use crate::fault::SpellFault;
use crate::spellable::some_text_ends;
use crate::spelling::Spelling;
use sc_base::Text;
use sc_expr::Filter;
use std::alloc::Global;

/// Writes a filter as a text of CQL2 (OGC 21-065r2, Annex B).
///
/// Words are in upper case, names in double quotes, numbers canonical literals, moments `TIMESTAMP('..')` in UTC, and
/// coordinates decimal texts of degrees. A quote within a name is doubled, and one within a text stands behind a
/// backslash. One blank stands between tokens, but none behind a function word and `(`, nor before `)` and `,`. A member
/// of And, Or or Not that is one of these itself stands in parentheses, and no other does. A geometry of one part is a
/// `POINT`, `LINESTRING` or `POLYGON`, any other a `GEOMETRYCOLLECTION` of its points, lines and areas in this order.
///
/// It is `NoSpelling` exactly where a text or a pattern of the filter ends in a backslash, since no text in quotes does;
/// else `OutOfMemory` where memory ran out.
pub fn write_text(alloc: Global, filter: &Filter) -> Result<Text, SpellFault>
    ensures { MatchResult result (λ text. (text ≡ written filter.now) × (some_text_ends filter.now ≡ false)) (λ fault. IsFault fault filter.now) }
{
    let expr = filter.expr();
    if some_text_ends(expr) {
        return Err(SpellFault::NoSpelling);
    }
    let mut out = Spelling::new(alloc);
    push_expr(&mut out, alloc, expr)?;
    Ok(out.into_text())
}
