ghost use Rattle.std.specs.Prelude.{◌≡◌, [], IfOk};
ghost use Rattle.sc_refusal.specs.Refusals as spec;

use sc_base::Text;
use std::alloc::{AllocError, Global};

/// What is told of a fault.
#[derive(Debug, Drop)]
pub struct Refusal {
    /// The status of the reply that tells it.
    pub status: u16,
    /// The fault's name.
    pub name: Text,
    /// What is told about it: what the fault has of its own, as a number, an id, or the name of an inner fault.
    pub about: Text,
}

/// A refusal by a fault of which nothing but its name is told.
pub(crate) fn plain(alloc: Global, status: u16, name: &str) -> Result<Refusal, AllocError>
    ensures { IfOk result (λ refusal. refusal ≡ spec.refusal status name.now []) }
{
    Ok(Refusal {
        status,
        name: Text::from_str(alloc, name)?,
        about: Text::from_string(String::new(alloc)),
    })
}

/// A refusal by a fault of which this is told.
pub(crate) fn telling(
    alloc: Global,
    status: u16,
    name: &str,
    about: Text,
) -> Result<Refusal, AllocError>
    ensures { IfOk result (λ refusal. refusal ≡ spec.refusal status name.now about) }
{
    Ok(Refusal {
        status,
        name: Text::from_str(alloc, name)?,
        about,
    })
}
