ghost use Rattle.std.specs.Prelude.{◌≡◌, option_map};
ghost use Rattle.sc_history.specs.Part.{AreInOrder};
ghost use Rattle.sc_shelf.specs.Split.{IsSplit};

use crate::kept::KeptPart;
use crate::names::compare_names;
use sc_cut::PartName;

/// The parts before and after a name, and the part that has it.
#[derive(Drop)]
pub(crate) struct Split<'a> {
    pub before: &'a [KeptPart],
    pub here: Option<&'a KeptPart>,
    pub after: &'a [KeptPart],
}

/// Splits parts, whose names rise, at a name, by a binary search.
pub(crate) fn split_at<'a>(parts: &'a [KeptPart], name: &PartName) -> Split<'a>
    requires { AreInOrder parts.now }
    ensures { IsSplit name.now parts.now result.before.now (option_map (λ part. part.now) result.here) result.after.now }
{
    match parts.binary_search_by(|part| compare_names(part.name(), name)) {
        Ok(at) => Split {
            before: &parts[..at],
            here: Some(&parts[at]),
            after: &parts[at + 1..],
        },
        Err(at) => Split {
            before: &parts[..at],
            here: None,
            after: &parts[at..],
        },
    }
}
