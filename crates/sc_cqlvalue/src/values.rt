use crate::act::act;
use crate::shape::put_geometry;
use crate::state::State;
use sc_cqlgrammar::Mark;
use sc_expr::{Expr, Geom};
use sc_grammar::Token;
use std::alloc::{AllocError, Global};
use std::marker::Model;

/// What was read of a filter so far, which contracts see as its [`State`]. Whatever stands ready in it is formed as
/// `Expr::checked` asks.
#[derive(Drop)]
pub struct Values {
    state: State,
}

impl Model for Values {
    ghost use Rattle.sc_cqlvalue.specs.declared.state.State.{State};
    ghost use Rattle.sc_cqlvalue.specs.contracts.state.State as states;
    ghost use Rattle.sc_cqlvalue.specs.Formed.{AreFormed};

    ghost Value = { State };

    ghost coded = { states.the_row.coded };

    ghost view = { λ v. v.state };

    ghost invariant = { λ v. AreFormed v.state };
}

impl Values {
    ghost use Rattle.std.specs.Prelude.{◌≡◌, ◌≤◌, length, OnOk, OnErr, IfOk, IfSome};
    ghost use Rattle.sc_geom.specs.Shapes.{positions_of};
    ghost use Rattle.sc_expr.specs.Form.{IsFormed};
    ghost use Rattle.sc_cqlvalue.specs.Values as values;

    /// Nothing was read. Takes no memory.
    pub fn new(alloc: Global) -> Values
        ensures { result ≡ values.start }
    {
        Values {
            state: State::new(alloc),
        }
    }

    /// A token came.
    pub fn eat(&mut self, token: Token)
        ensures { self.new ≡ values.eats token self.old }
    {
        self.state.token = token;
    }

    /// Does what a mark asks. `text` is what the tokens stand in. Of a literal that can't be read the place is noted, and
    /// some value stands for it.
    ///
    /// Want of memory leaves nothing of what was read.
    pub fn mark(&mut self, alloc: Global, text: &[u8], mark: Mark) -> Result<(), AllocError>
        ensures ok { OnOk result (self.new ≡ values.does text.now mark self.old) }
        ensures err { OnErr result (self.new ≡ values.start) }
    {
        match act(alloc, text, mark, &mut self.state) {
            Ok(()) => Ok(()),
            Err(error) => {
                self.state = State::new(alloc);
                Err(error)
            }
        }
    }

    /// Puts a geometry that was drawn as a shape, or notes the place of one that is refused.
    ///
    /// Want of memory leaves nothing of what was read.
    pub fn put_geometry(
        &mut self,
        alloc: Global,
        drawn: Result<Geom, usize>,
    ) -> Result<(), AllocError>
        requires { IfOk drawn (λ geometry. length (positions_of geometry) ≤ 1000) }
        ensures ok { OnOk result (self.new ≡ values.with_geometry drawn self.old) }
        ensures err { OnErr result (self.new ≡ values.start) }
    {
        match put_geometry(alloc, drawn, &mut self.state) {
            Ok(()) => Ok(()),
            Err(error) => {
                self.state = State::new(alloc);
                Err(error)
            }
        }
    }

    /// The least place of what can't be read.
    pub fn bad(&self) -> Option<u64>
        ensures { result ≡ self.now.bad }
    {
        self.state.bad
    }

    /// The expression that stands ready; `None` where there is none, or more than one.
    pub fn finish(self) -> Option<Expr>
        ensures expr { result ≡ values.finished self.exprs }
        ensures formed { IfSome result IsFormed }
    {
        let Values { state } = self;
        let State { mut exprs, .. } = state;
        match exprs.pop() {
            Some(expr) if exprs.len() == 0 => Some(expr),
            _ => None,
        }
    }
}
