ghost use Rattle.std.specs.Prelude.{◌≡◌, IfOk};
ghost use Rattle.sc_outcome.specs.Refused as spec;

use crate::outcome::Outcome;
use sc_base::Text;
use sc_refusal::Refusal;
use std::alloc::{AllocError, Global};

/// A step is refused as a request is.
pub fn refused_of(refusal: Refusal) -> Outcome
    ensures { result ≡ spec.refused_of refusal }
{
    Outcome::Refused {
        name: refusal.name,
        detail: refusal.about,
    }
}

/// A step names a snapshot or a ticket that isn't there.
pub fn no_such_name(alloc: Global, name: Text) -> Result<Outcome, AllocError>
    ensures { IfOk result (λ outcome. outcome ≡ spec.no_such_name name) }
{
    Ok(Outcome::Refused {
        name: Text::from_str(alloc, "NoSuchName")?,
        detail: name,
    })
}

/// A step gives a name that another snapshot or ticket has.
pub fn name_taken(alloc: Global, name: Text) -> Result<Outcome, AllocError>
    ensures { IfOk result (λ outcome. outcome ≡ spec.name_taken name) }
{
    Ok(Outcome::Refused {
        name: Text::from_str(alloc, "NameTaken")?,
        detail: name,
    })
}
