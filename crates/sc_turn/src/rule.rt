//! The rule of the lock: what holds of its words, its slot and all views between any two steps.
use crate::booked::Booked;
use crate::view::View;
use atomic_table::TableRule;
use std::snapshot::Snapshot;

/// What is fixed when the lock is made: how many cards there will be, and the value.
#[derive(Drop)]
pub struct Origin<V> {
    pub passes: u64,
    pub value: Snapshot<V>,
}

pub struct InTurns;

impl<V: Booked> TableRule<Option<V>, View<V::Entry>, Origin<V>> for InTurns {
    ghost use Rattle.sc_turn.specs.Rule.{Kept};
    ghost use Rattle.sc_turn.specs.Views.{maker};

    ghost holds = { λ k. Kept V.history V.by k.passes (V.history k.value.value) };

    ghost first = { λ k. maker 0 (V.history k.value.value) };
}
