//! What the steps of a script give, and the lines that tell it.
#![tactic(auto)]

mod bounds;
mod line;
mod outcome;
mod refused;
mod texts;

pub use line::push_line;
pub use outcome::Outcome;
pub use refused::{name_taken, no_such_name, refused_of};
pub use sc_base::Text;
pub use sc_bounds::Bounds;
pub use sc_page::Page;
pub use sc_refusal::Refusal;
