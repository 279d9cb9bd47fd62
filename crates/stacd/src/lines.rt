ghost use Rattle.std.specs.Prelude.{MatchResult};
ghost use Rattle.sc_outside.specs.Lines.{lines_to_read};
ghost use Rattle.stacd.specs.Lines.{ArePaged, IsFault};

use crate::fault::LineFault;
use crate::names::Names;
use sc_item::read_line;
use sc_outside::{Seq, line_without_feed, next_line};
use sc_page::{PageItem, PageSoFar};
use std::alloc::Global;

/// The most bytes of input.
pub const MOST_BYTES: usize = 1 << 28;

/// The most lines of input.
pub const MOST_LINES: usize = 1_000_000;

/// The page of the items of the lines, or the first bad line: one that spells no item, that repeats a name, or that is past
/// a limit. Of an item that isn't on the page only its name is kept. The bytes are let go at its end.
pub(crate) fn judge(
    alloc: Global,
    bytes: Seq<u8>,
    all: bool,
    limit: u32,
) -> Result<Seq<PageItem>, LineFault>
    ensures { MatchResult result (ArePaged (lines_to_read all bytes) limit) (IsFault (lines_to_read all bytes)) }
{
    let mut names = Names::new(alloc);
    let mut page = PageSoFar::new(alloc, limit);
    let mut count: usize = 0;
    let mut rest = bytes.as_slice();
    'reading: while let Some((line, after)) = next_line(rest, all) {
        let number = count as u64 + 1;
        if count >= MOST_LINES {
            return Err(LineFault::BadLine(number));
        }
        if bytes.len() - after.len() > MOST_BYTES {
            return Err(LineFault::BadLine(number));
        }
        let Some(item) = read_line(alloc, line_without_feed(line))? else {
            return Err(LineFault::BadLine(number));
        };
        let new = names.insert(alloc, &item)?;
        if !new {
            return Err(LineFault::BadLine(number));
        }
        page.add(alloc, &item)?;
        count += 1;
        rest = after;
    }
    Ok(page.into_items()?)
}
