//! What a load leaves of a list of parts.
ghost use Rattle.std.specs.Prelude.{◌≡◌, ◌++◌, filter, not, IfOk, OnOk};
ghost use Rattle.std.specs.Str.{bytes_eq};
ghost use Rattle.std.specs.Option.{option_to_list};
ghost use Rattle.sc_history.specs.Part.{AreInOrder};
ghost use Rattle.sc_shelf.specs.Changed.{AreChanged, AreChangesOf};

use crate::change::PartChange;
use crate::kept::KeptPart;
use crate::split::split_at;
use crate::touch::touch;
use sc_base::Text;
use std::alloc::{AllocError, Global};

/// Puts pointers to the same parts at the end.
pub(crate) fn push_all(new: &mut Vec<KeptPart>, parts: &[KeptPart]) -> Result<(), AllocError>
    ensures { OnOk result (new.new.items ≡ new.old.items ++ parts.now) }
{
    for part in parts {
        new.push(part.share()?)?;
    }
    Ok(())
}

/// Puts a part at the end, where there is one.
fn push_some(new: &mut Vec<KeptPart>, part: Option<KeptPart>) -> Result<(), AllocError>
    ensures { OnOk result (new.new.items ≡ new.old.items ++ option_to_list part) }
{
    if let Some(part) = part {
        new.push(part)?;
    }
    Ok(())
}

/// The parts after the changes that a load of this revision makes, in one pass over both.
pub(crate) fn changed_parts(
    alloc: Global,
    revision: u64,
    changes: &[PartChange],
    old: &[KeptPart],
) -> Result<Vec<KeptPart>, AllocError>
    requires rise { AreInOrder old.now }
    requires changes { AreChangesOf old.now changes.now }
    ensures { IfOk result (λ new. AreChanged revision changes.now old.now new.items) }
{
    let mut new = Vec::with_capacity(alloc, old.len() + changes.len())?;
    let mut rest = old;
    for change in changes {
        let split = split_at(rest, &change.name);
        push_all(&mut new, split.before)?;
        push_some(&mut new, touch(alloc, revision, change, split.here)?)?;
        rest = split.after;
    }
    push_all(&mut new, rest)?;
    Ok(new)
}

/// The parts that aren't of the collection.
pub(crate) fn parts_without(
    alloc: Global,
    old: &[KeptPart],
    collection: &Text,
) -> Result<Vec<KeptPart>, AllocError>
    ensures { IfOk result (λ new. new.items ≡ filter (λ part. not (bytes_eq part.name.collection collection.now)) old.now) }
{
    let mut new = Vec::with_capacity(alloc, old.len())?;
    for part in old {
        if !part.is_of(collection) {
            new.push(part.share()?)?;
        }
    }
    Ok(new)
}
