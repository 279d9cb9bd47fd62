ghost use Rattle.std.specs.Prelude.{◌≡◌, [], ◌∷◌, MatchResult};
ghost use Rattle.sc_expr.specs.declared.expr.Expr.{Expr as ExprOf};
ghost use Rattle.sc_cqlread.specs.Filters.{IsCqlText};
ghost use Rattle.sc_cqlread.specs.Faults.{IsFault};
ghost use Rattle.sc_cqlread.specs.Reading.{Reading as Made};
ghost use Rattle.sc_cqlread.specs.Kept.{Holds};
ghost use Rattle.sc_cqlread.specs.Judged.{Judged, first_fault};

use crate::reading::Reading;
use crate::taking::{End, take_all};
use sc_cqlgrammar::{Rule, Stack};
use sc_expr::{CqlFault, ExprFault, Filter};
use sc_grammar::readable_len;
use std::alloc::Global;

/// The fault of a text that breaks off at a place: a literal before it that can't be read comes first.
fn broken(bad: Option<u64>, place: usize) -> CqlFault
    ensures { result ≡ first_fault bad place }
{
    match bad {
        Some(at) => CqlFault::BadLiteral { at },
        None => CqlFault::Syntax { at: place as u64 },
    }
}

/// The filter that a whole text is, by what its tokens made.
fn judged(reading: Reading) -> Result<Filter, CqlFault>
    requires { (made : Made) × Holds reading made × (expr : ExprOf) × (made.values.exprs ≡ expr ∷ []) }
    ensures { (made : Made) → Holds reading made → Judged made result }
{
    if let Some(at) = reading.bad() {
        return Err(CqlFault::BadLiteral { at });
    }
    match reading.finish().checked() {
        Ok(filter) => Ok(filter),
        Err(ExprFault::TooDeep { .. }) => Err(CqlFault::TooDeep),
        Err(ExprFault::TooManyNodes { .. }) => Err(CqlFault::TooManyNodes),
    }
}

/// The filter that a text of CQL2 is (OGC 21-065r2, Annex B).
///
/// `TooDeep` where parentheses nest deeper than 64 before the first byte at which no token can be formed. Else `Syntax` at the
/// first token that no filter goes on with, or at the text's length where it ends too soon, or `BadLiteral` at the first
/// literal before that which can't be read. Else `TooDeep` where the filter is deeper than 24, and then `TooManyNodes` where
/// it has more than 1,024 nodes. `OutOfMemory` may come of any text.
///
/// A byte at which no token can be formed, an opening quote that isn't closed and a byte that isn't UTF-8 among them, is a
/// token that no filter goes on with; where such a byte stands within quotes, the opening quote is.
///
/// A literal that can't be read is the text of a timestamp or date that is none, a number that is too wide, or, where they are
/// closed, a box that has a coordinate out of range, south above north, or, where west is above east, west above 180 or east
/// below -180 degrees, and an outermost geometry with a line of fewer than 2 positions, an open ring, a coordinate out of range
/// or more than 1,000 positions. Each stands at its token, a box at its word and a geometry at its first word.
pub fn read_text(alloc: Global, text: &[u8]) -> Result<Filter, CqlFault>
    ensures { MatchResult result (IsCqlText text.now) (IsFault text.now) }
{
    let len = readable_len(text);
    let mut stack = Stack::new(alloc, Rule::Whole)?;
    let mut reading = Reading::new(alloc)?;
    let end = take_all(
        alloc,
        &text[..len],
        len == text.len(),
        &mut stack,
        &mut reading,
    )?;
    match end {
        End::TooDeep => Err(CqlFault::TooDeep),
        End::Broken(place) => Err(broken(reading.bad(), place)),
        End::Whole => judged(reading),
    }
}
