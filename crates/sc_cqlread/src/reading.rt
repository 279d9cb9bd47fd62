ghost use Rattle.std.specs.Prelude.{◌≡◌, ◌≤◌, [], ◌∷◌, length, List, ℕ, OnOk, IfOk, IfSome, MatchOption};
ghost use Rattle.sc_geom.specs.Shapes.{positions_of};
ghost use Rattle.sc_expr.specs.declared.expr.Expr.{Expr as ExprOf};
ghost use Rattle.sc_expr.specs.Form.{IsFormed};
ghost use Rattle.sc_cqlgrammar.specs.declared.mark.Mark.TheVariants as marks;
ghost use Rattle.sc_cqlvalue.specs.Values.{finished};
ghost use Rattle.sc_cqlread.specs.Reading.{Reading as Made, start, eats, does, drawn, bad_of, geometry_begun, geometry_ended, lesser, place_of, CanEnd};
ghost use Rattle.sc_wkt.specs.Kept.{IsDrawing};
ghost use Rattle.sc_cqlread.specs.Kept.{Holds};

use sc_cqlgrammar::Mark;
use sc_cqlvalue::Values;
use sc_expr::{Expr, Geom};
use sc_grammar::Token;
use sc_wkt::Drawing;
use std::alloc::{AllocError, Global};
use std::mem;

/// The most positions of a geometry.
const MOST_POSITIONS: u32 = 1_000;

/// What was read of a filter so far.
#[derive(Drop)]
pub(crate) struct Reading {
    values: Values,
    /// The geometry that is open.
    drawing: Drawing,
    /// Where the first token stands since the last outermost geometry began.
    word: Option<usize>,
    /// Where the first number stands that is too wide.
    wide: Option<u64>,
}

impl Reading {
    /// Nothing was read.
    pub(crate) fn new(alloc: Global) -> Result<Reading, AllocError>
        ensures { IfOk result (λ reading. Holds reading start) }
    {
        Ok(Reading {
            values: Values::new(alloc),
            drawing: Drawing::new(alloc)?,
            word: None,
            wide: None,
        })
    }

    /// Reads a token that was taken.
    pub(crate) fn eat(&mut self, text: &[u8], token: Token)
        requires ordered { token.from ≤ token.to }
        requires within { token.to ≤ length text.now }
        ensures { (r : Made) → Holds self.old r → Holds self.new (eats text.now token r) }
    {
        self.values.eat(token);
        self.drawing.read(text, token);
        self.wide = self.wide.or(self.drawing.wide_at(token));
        self.word = self.word.or(Some(token.from));
    }

    /// Does what a mark means. Want of memory leaves nothing of use.
    pub(crate) fn mark(&mut self, alloc: Global, text: &[u8], mark: Mark) -> Result<(), AllocError>
        requires { (r : Made) × Holds self.old r × (mark ≡ marks.Geometry → CanEnd r) }
        ensures { (r : Made) → Holds self.old r → OnOk result (Holds self.new (does text.now mark r)) }
    {
        match mark {
            Mark::Outermost => self.begin_geometry(alloc),
            Mark::Geometry => self.end_geometry(alloc),
            other => {
                self.drawing.draw(alloc, other)?;
                self.values.mark(alloc, text, other)
            }
        }
    }

    fn begin_geometry(&mut self, alloc: Global) -> Result<(), AllocError>
        ensures { (r : Made) → Holds self.old r → OnOk result (Holds self.new (geometry_begun r)) }
    {
        self.drawing = Drawing::new(alloc)?;
        self.word = None;
        Ok(())
    }

    fn end_geometry(&mut self, alloc: Global) -> Result<(), AllocError>
        requires { (r : Made) × Holds self.old r × CanEnd r }
        ensures { (r : Made) → Holds self.old r → OnOk result (Holds self.new (geometry_ended r)) }
    {
        let drawing = mem::replace(&mut self.drawing, Drawing::new(alloc)?);
        let geometry = drawn(drawing, self.word, self.wide)?;
        self.values.put_geometry(alloc, geometry)
    }

    /// The least place of a literal that can't be read.
    pub(crate) fn bad(&self) -> Option<u64>
        ensures { (r : Made) → Holds self.now r → result ≡ bad_of r }
    {
        lesser(self.values.bad(), self.wide)
    }

    /// The one expression, where there is just one.
    pub(crate) fn finish(self) -> Expr
        requires { (r : Made) × Holds self r × (expr : ExprOf) × (r.values.exprs ≡ expr ∷ []) }
        ensures alone { (r : Made) → Holds self r → r.values.exprs ≡ result ∷ [] }
        ensures formed { IsFormed result }
    {
        match self.values.finish() {
            Some(expr) => expr,
            None => unreachable!(),
        }
    }
}

/// The geometry that is whole, or the place that is noted for it: where a number was too wide, also before the geometry, the
/// text is refused for that one, and the geometry isn't seen.
fn drawn(
    drawing: Drawing,
    word: Option<usize>,
    wide: Option<u64>,
) -> Result<Result<Geom, usize>, AllocError>
    requires { (r : Made) × IsDrawing drawing r.drawing × (wide ≡ r.wide) × CanEnd r }
    ensures few { IfOk result (λ geometry. IfOk geometry (λ shapes. length (positions_of shapes) ≤ 1000)) }
    ensures drawn { (r : Made) → IsDrawing drawing r.drawing → word ≡ r.word → wide ≡ r.wide → IfOk result (λ geometry. geometry ≡ drawn r) }
{
    if drawing.is_bad(MOST_POSITIONS) {
        return Ok(Err(word.unwrap_or(0)));
    }
    match wide {
        None => Ok(Ok(drawing.finish(MOST_POSITIONS)?)),
        Some(place) => Ok(Err(place as usize)),
    }
}

fn lesser(a: Option<u64>, b: Option<u64>) -> Option<u64>
    ensures { result ≡ lesser a b }
{
    match (a, b) {
        (None, _) => b,
        (Some(_), None) => a,
        (Some(a), Some(b)) => Some(a.min(b)),
    }
}
