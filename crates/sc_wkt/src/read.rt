ghost use Rattle.std.specs.Prelude.{IfOk};
ghost use Rattle.sc_wkt.specs.Reading.{IsReading};

use crate::drawing::Drawing;
use crate::levels::{level_behind, next_token};
use crate::reading::{End, Reading};
use crate::taking::take;
use sc_cqlgrammar::{Rule, Stack};
use std::alloc::{AllocError, Global};

/// Reads one geometry from the front of a text, which is UTF-8, and `is_whole` where it is all of what is read.
pub(crate) fn read_geometry(
    alloc: Global,
    text: &[u8],
    is_whole: bool,
) -> Result<Reading, AllocError>
    ensures { IfOk result (IsReading text.now is_whole) }
{
    let mut stack = Stack::new(alloc, Rule::Geometry)?;
    let mut drawing = Drawing::new(alloc)?;
    let mut wide = None;
    let mut level = 0;
    let mut at = 0;
    loop {
        let token = next_token(text, is_whole, at, level);
        if !take(alloc, &mut stack, &mut drawing, text, token)? {
            let end = End::Refused(token.from);
            return Ok(Reading { drawing, wide, end });
        }
        wide = wide.or(drawing.wide_at(token));
        level = level_behind(token.class, level);
        at = token.to;
        if stack.is_empty() {
            let end = End::Whole(at);
            return Ok(Reading { drawing, wide, end });
        }
    }
}
