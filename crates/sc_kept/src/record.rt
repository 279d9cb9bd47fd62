ghost use Rattle.std.specs.Prelude.{◌≡◌, IfOk, MatchOption};
ghost use Rattle.sc_kept.specs.Record.{IsNoPayload, IsPayload};

use crate::fields::read_fields;
use crate::loads::read_load;
use sc_catalog::Entry;
use std::alloc::{AllocError, Global};

/// The load that a payload tells, with the number of who published it. None exactly where the payload isn't of the format:
/// where no well-formed load has it.
pub fn read_record(alloc: Global, payload: &[u8]) -> Result<Option<Entry>, AllocError>
    ensures { IfOk result (λ found. MatchOption found (IsNoPayload payload.now) (IsPayload payload.now)) }
{
    let [kind, first, second, third, fourth, rest @ ..] = payload else {
        return Ok(None);
    };
    let by = u32::from_be_bytes([*first, *second, *third, *fourth]);
    let Some(fields) = read_fields(alloc, rest)? else {
        return Ok(None);
    };
    match read_load(alloc, *kind, fields.as_slice())? {
        Some(load) => Ok(Some(Entry { by, load })),
        None => Ok(None),
    }
}
