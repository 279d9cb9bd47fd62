ghost use Rattle.std.specs.Prelude.{◌≤◌, length, IfOk, MatchBool};
ghost use Rattle.sc_wkt.specs.Drawing.{Drawing as Drawn};
ghost use Rattle.sc_wkt.specs.Kept.{IsDrawing};
ghost use Rattle.sc_wkt.specs.Reading.{Refuse, Takes};

use crate::drawing::Drawing;
use sc_cqlgrammar::{Stack, Step};
use sc_grammar::Token;
use std::alloc::{AllocError, Global};

/// Whether the token may come, with what is drawn by it.
pub(crate) fn take(
    alloc: Global,
    stack: &mut Stack,
    drawing: &mut Drawing,
    text: &[u8],
    token: Token,
) -> Result<bool, AllocError>
    requires ordered { token.from ≤ token.to }
    requires within { token.to ≤ length text.now }
    ensures { (d : Drawn) → IsDrawing drawing.old d → IfOk result (λ yes. MatchBool yes
        ((e : Drawn) × Takes text.now stack.old d token stack.new e × IsDrawing drawing.new e)
        (Refuse text.now stack.old d token)) }
{
    loop {
        match stack.next(token.class)? {
            Step::Mark(mark) => drawing.draw(alloc, mark)?,
            Step::Taken => {
                drawing.read(text, token);
                return Ok(true);
            }
            Step::Refused => return Ok(false),
        }
    }
}
