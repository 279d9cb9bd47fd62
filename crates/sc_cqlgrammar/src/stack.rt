ghost use Rattle.std.specs.Prelude.{◌≡◌, ◌≢◌, ◌↔◌, ◌++◌, ◌∷◌, [], map, IsTrue, MatchOption, OnOk, IfOk};
ghost use Rattle.sc_grammar.specs.Grammar.{non};
ghost use Rattle.sc_cqlgrammar.specs.Machine.{item_of, IsComparison, IsStep};

use crate::choice::alternative;
use crate::item::Item;
use crate::rule::Rule;
use crate::step::Step;
use sc_grammar::Class;
use std::alloc::{AllocError, Global};
use std::marker::Model;

/// What is to come, which contracts see as a list of items, the next one first.
#[derive(Debug, Drop)]
pub struct Stack {
    items: Vec<Item>,
}

impl Model for Stack {
    ghost use Rattle.std.specs.Prelude.{map, reverse};
    ghost use Rattle.sc_cqlgrammar.specs.Rules.{Items};
    ghost use Rattle.sc_cqlgrammar.specs.Machine.{item_of};

    ghost Value = { Items };

    ghost view = { λ s. map item_of (reverse s.items.items) };
}

impl Stack {
    fn empty(alloc: Global) -> Stack
        ensures { result ≡ [] }
    {
        Stack {
            items: Vec::new(alloc),
        }
    }

    fn push(&mut self, item: Item) -> Result<(), AllocError>
        ensures { OnOk result (self.new ≡ item_of item ∷ self.old) }
    {
        self.items.push(item)?;
        Ok(())
    }

    fn pop(&mut self) -> Option<Item>
        ensures { MatchOption result (self.old ≡ []) (λ item. self.old ≡ item_of item ∷ self.new) }
    {
        self.items.pop()
    }

    /// Whether nothing is to come.
    pub fn is_empty(&self) -> bool
        ensures { IsTrue result ↔ (self.now ≡ []) }
    {
        self.items.is_empty()
    }

    /// A rule is to come.
    pub fn new(alloc: Global, start: Rule) -> Result<Stack, AllocError>
        ensures { IfOk result (λ stack. stack ≡ non start ∷ []) }
    {
        let mut stack = Stack::empty(alloc);
        stack.push(Item::Rule(start))?;
        Ok(stack)
    }

    /// Opens rules until a mark or a token is to come next, and takes that off: a mark, or the token if it is of the class.
    /// Where the token isn't, or no alternative is picked by the class, the token is refused.
    pub fn next(&mut self, class: Class) -> Result<Step, AllocError>
        ensures { IfOk result (λ step. IsStep self.old class step self.new) }
    {
        next(self, class)
    }
}

/// Puts items in front of those that are to come.
fn put_all(stack: &mut Stack, items: &[Item]) -> Result<(), AllocError>
    ensures { OnOk result (stack.new ≡ map item_of items.now ++ stack.old) }
{
    let mut at = items.len();
    while at > 0 {
        at -= 1;
        stack.push(items[at])?;
    }
    Ok(())
}

fn next(stack: &mut Stack, class: Class) -> Result<Step, AllocError>
    ensures { IfOk result (λ step. IsStep stack.old class step stack.new) }
{
    loop {
        match stack.pop() {
            None => return Ok(Step::Refused),
            Some(Item::Token(wanted)) => return Ok(compared(wanted, class)),
            Some(Item::Mark(mark)) => return Ok(Step::Mark(mark)),
            Some(Item::Rule(rule)) => match alternative(rule, class) {
                None => return Ok(Step::Refused),
                Some(items) => put_all(stack, items)?,
            },
        }
    }
}

fn compared(wanted: Class, class: Class) -> Step
    ensures { IsComparison wanted class result }
{
    if wanted == class {
        Step::Taken
    } else {
        Step::Refused
    }
}
