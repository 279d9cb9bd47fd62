//! The rule of the queue: what was told is what was heard and what the queue holds. A pass has shares of the right to know
//! the whole, of which there are 1,024; who has them all knows it.
use crate::notice::Notice;
use crossbeam_queue::protocol::{Join, Lesson, Outcome, Protocol, Split};
use std::collections::LinkedList;

/// What the queue's rule knows of a pass. No value of it is made.
pub struct Hand {
    /// How many of the 1,024 shares the pass has.
    pub shares: u64,
    /// The notices that it told, in their order.
    pub told: LinkedList<Notice>,
    /// The notices that it heard, in their order.
    pub heard: LinkedList<Notice>,
}

/// The rule: over all passes, each notice that was told was heard or is in the queue.
pub struct Balance;

impl Protocol<Notice, Hand> for Balance {
    ghost use Rattle.sc_notice.specs.Balance.{Balanced, hand};
    ghost use Rattle.std.specs.Prelude.{[]};

    ghost holds = { Balanced };

    ghost first = { hand 1_024 [] [] };
}

/// A pass tells a notice.
pub struct Tells;

impl Outcome<Notice, Hand> for Tells {
    ghost use Rattle.sc_notice.specs.Balance.{hand};
    ghost use Rattle.std.specs.Prelude.{◌≡◌, [], ◌∷◌, ◌++◌};

    ghost then = { λ v x w. w ≡ hand v.shares (v.told ++ x ∷ []) v.heard };
}

impl Lesson<Notice, Hand> for Tells {
    ghost use Rattle.sc_notice.specs.Balance.{KnowsAll};

    ghost fact = { KnowsAll };
}

/// A pass hears a notice.
pub struct Hears;

impl Outcome<Notice, Hand> for Hears {
    ghost use Rattle.sc_notice.specs.Balance.{hand};
    ghost use Rattle.std.specs.Prelude.{◌≡◌, [], ◌∷◌, ◌++◌};

    ghost then = { λ v x w. w ≡ hand v.shares v.told (v.heard ++ x ∷ []) };
}

impl Lesson<Notice, Hand> for Hears {
    ghost use Rattle.sc_notice.specs.Balance.{KnowsAll};

    ghost fact = { KnowsAll };
}

/// A further pass gets one share and has told and heard nothing; where two passes become one, all is the sum.
pub struct Deals;

impl Split<Hand> for Deals {
    ghost use Rattle.sc_notice.specs.Balance.{hand};
    ghost use Rattle.std.specs.Prelude.{[], ◌-◌};

    ghost left = { λ v. hand (v.shares - 1) v.told v.heard };

    ghost right = { λ v. hand 1 [] [] };
}

impl Join<Hand> for Deals {
    ghost use Rattle.sc_notice.specs.Balance.{hand};
    ghost use Rattle.std.specs.Prelude.{[], ◌+◌, ◌++◌};

    ghost both = { λ v w. hand (v.shares + w.shares) (v.told ++ w.told) (v.heard ++ w.heard) };

    ghost spent = { hand 0 [] [] };
}
