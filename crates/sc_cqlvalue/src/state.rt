use crate::exprs::Exprs;
use sc_base::{Seq, Stack};
use sc_decimal::Dec;
use sc_expr::{Pattern, Scalar, Shape};
use sc_grammar::{Class, Token};
use std::alloc::Global;

/// A box of which some numbers came.
#[derive(Drop)]
pub struct Bbox {
    /// Where its word begins.
    pub place: usize,
    /// West, south, east and north, or these with a height behind each corner.
    pub sides: Seq<Dec>,
    /// Whether a number was too wide. It isn't among the sides then, and the box isn't judged.
    pub has_wide: bool,
}

/// What was read of a filter so far, its geometries left out. What stands ready is what the marks to come take.
#[derive(Drop)]
pub struct State {
    /// The token that came last.
    pub token: Token,
    /// The scalars that stand ready, the last one first.
    pub scalars: Stack<Scalar>,
    /// The expressions that stand ready, the last one first.
    pub exprs: Exprs,
    /// The shapes that stand ready, the last one first.
    pub shapes: Stack<Shape>,
    /// For each open chain, the last one first, how many expressions stood ready before it.
    pub chains: Stack<usize>,
    /// The elements of the list that is open, in their order.
    pub listed: Seq<Scalar>,
    /// The pattern that stands ready.
    pub pattern: Option<Pattern>,
    pub bbox: Bbox,
    /// The least place of a literal that can't be read.
    pub bad: Option<u64>,
}

impl State {
    ghost use Rattle.std.specs.Prelude.{◌≡◌};
    ghost use Rattle.sc_cqlvalue.specs.Values.{start};

    /// Before the first token. Takes no memory.
    pub(crate) fn new(alloc: Global) -> State
        ensures { result ≡ start }
    {
        State {
            token: Token {
                class: Class::End,
                from: 0,
                to: 0,
            },
            scalars: Stack::new(alloc),
            exprs: Exprs::new(alloc),
            shapes: Stack::new(alloc),
            chains: Stack::new(alloc),
            listed: Seq::new(alloc),
            pattern: None,
            bbox: Bbox {
                place: 0,
                sides: Seq::new(alloc),
                has_wide: false,
            },
            bad: None,
        }
    }
}
