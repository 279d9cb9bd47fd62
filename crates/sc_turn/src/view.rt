//! What a seat of the lock knows. No value of these types is ever made: they stand in contracts alone.
use std::collections::LinkedList;

/// What a seat is doing.
pub enum Role<E> {
    /// Nothing any more: another seat has joined it.
    Spent,
    /// It has made the cards 1 to this number.
    Maker(u64),
    /// It has no ticket.
    Idle,
    /// It waits with this ticket.
    Drawn(u64),
    /// It drew a ticket of 2^63 or more, and waits for ever.
    Stuck,
    /// Its ticket, which is this, is served: it has the value.
    Called(u64),
    /// It closes the lock. The numbers and the seen lists of the cards that it took back, in order.
    Closer(LinkedList<(u64, LinkedList<E>)>),
}

pub struct View<E> {
    /// The number of the card, from 1.
    pub number: u64,
    /// The length of the history when the lock was made.
    pub start: u64,
    /// The beginning of the history that was seen.
    pub seen: LinkedList<E>,
    /// The length of the history at the end of each turn.
    pub visits: LinkedList<u64>,
    pub role: Role<E>,
}
