ghost use Rattle.std.specs.Prelude.{◌≡◌, ◌<◌, ◌≤◌, [], ◌∷◌, length, take, drop, reverse, OnOk, IfOk, MatchOption};

use sc_base::Seq;
use sc_expr::Expr;
use std::alloc::{AllocError, Global};
use std::marker::Model;

/// The expressions that stand ready, which contracts see as their list, the last first. Beside what a stack has, the members
/// of a chain are taken from it at once.
#[derive(Drop)]
pub struct Exprs {
    items: Vec<Expr>,
}

impl Model for Exprs {
    ghost use Rattle.std.specs.Prelude.{List, reverse};
    ghost use Rattle.std.specs.Coded.{coded_list};
    ghost use Rattle.sc_expr.specs.declared.expr.Expr.{Expr};
    ghost use Rattle.sc_expr.specs.contracts.expr.Expr as expressions;

    ghost Value = { List Expr };

    ghost coded = { coded_list expressions.the_row.coded };

    ghost view = { λ s. reverse s.items.items };
}

impl Exprs {
    /// None. Takes no memory.
    pub(crate) fn new(alloc: Global) -> Exprs
        ensures { result ≡ [] }
    {
        Exprs {
            items: Vec::new(alloc),
        }
    }

    pub(crate) fn len(&self) -> usize
        ensures { result ≡ length self.now }
    {
        self.items.len()
    }

    /// Takes the last one, or gives `None` exactly where there is none.
    pub(crate) fn pop(&mut self) -> Option<Expr>
        ensures { MatchOption result ((self.old ≡ []) × (self.new ≡ [])) (λ x. self.old ≡ x ∷ self.new) }
    {
        self.items.pop()
    }

    pub(crate) fn push(&mut self, expr: Expr) -> Result<(), AllocError>
        ensures { OnOk result (self.new ≡ expr ∷ self.old) }
    {
        self.items.push(expr)?;
        Ok(())
    }

    /// Takes the last so many, in the order in which they came.
    pub(crate) fn take_last(&mut self, count: usize) -> Result<Seq<Expr>, AllocError>
        requires { count ≤ length self.old }
        ensures members { IfOk result (λ members. members ≡ reverse (take count self.old)) }
        ensures rest { OnOk result (self.new ≡ drop count self.old) }
    {
        let before = self.len() - count;
        let members = self.items.split_off(before)?;
        Ok(Seq::of(members))
    }
}
