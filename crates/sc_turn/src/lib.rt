//! A lock round one value, whose passes take turns in the order of their tickets and whose value has a history.
//!
//! `make` gives the desk and its cards. A card that is bound to the desk is a pass. A pass enters, and has the value in a `Turn`; it leaves with the history as it
//! was found or with one entry more of its own. What a pass has seen of the history is a beginning of all that it finds later. `close` takes the cards back and gives
//! the value. `docs/lock.md` has the whole on one page.
#![tactic(auto)]

mod booked;
mod closing;
mod making;
mod pass;
mod plays;
mod rule;
mod view;
mod waiting;

pub use booked::Booked;
pub use closing::close;
pub use making::{Refused, make};
pub use pass::{Card, Desk, Pass, Turn};
pub use sc_base::Seq;
