use crate::mark::Mark;
use crate::rule::Rule;
use sc_grammar::Class;

/// What is to come: a token, what a rule derives, or a place that means something.
#[derive(Clone, Copy, Debug, PartialEq, Eq)]
pub(crate) enum Item {
    Token(Class),
    Rule(Rule),
    Mark(Mark),
}
