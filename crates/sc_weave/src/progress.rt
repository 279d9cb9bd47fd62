ghost use Rattle.std.specs.Prelude.{◌≡◌, ◌+◌, ◌-◌, ◌<◌, ◌^◌, ◌≤◌, ◌⊎◌, [], ◌++◌, ◌∷◌, List, ℕ, length, IfOk, IfErr, OnOk, MatchBool, string_bytes};
ghost use Rattle.std.specs.declared.option.Option.{Option};
ghost use Rattle.sc_script.specs.Step.{HasGoodTrees};
ghost use Rattle.sc_script.specs.declared.step.StepFault.TheVariants.{BadStep};
ghost use Rattle.sc_outcome.specs.declared.outcome.Outcome.{Outcome};
ghost use Rattle.sc_outcome.specs.Outcome.{line_of};
ghost use Rattle.sc_machine.specs.Machine.{Takes};
ghost use Rattle.sc_weave.specs.Inside.{CantFollow, HasTold, HasWritten};

use sc_machine::Machine;
use sc_outcome::push_line;
use sc_outside::{Steps, line_without_feed};
use sc_script::{Step, StepFault, read_step};
use std::alloc::{AllocError, Global};
use std::sync::ledger::Ledger;

/// The most bytes of input.
pub(crate) const MOST_BYTES: usize = 1 << 28;

/// The most lines of input.
pub(crate) const MOST_LINES: usize = 1_000_000;

/// How far a run of a script is.
#[derive(Drop)]
pub(crate) struct Progress {
    machine: Machine,
    /// How many lines were woven.
    pub(crate) count: usize,
    /// How many bytes they have.
    pub(crate) read: usize,
    /// The lines that tell outcomes and weren't written yet.
    pub(crate) out: String,
}

impl Progress {
    /// Nothing was woven yet.
    pub(crate) fn new(alloc: Global) -> Result<Progress, AllocError>
        ensures { IfOk result (λ progress. (start : Option (List ℕ)) → HasWritten start start progress []) }
    {
        Ok(Progress {
            machine: Machine::new(alloc)?,
            count: 0,
            read: 0,
            out: String::new(alloc),
        })
    }
}

/// Whether a line is past a limit.
fn is_past(progress: &Progress, line: &[u8]) -> bool
    ensures { MatchBool result ((1_000_000 ≤ progress.now.count) ⊎ (2 ^ 28 - progress.now.read < length line.now)) ((progress.now.count < 1_000_000) × (length line.now ≤ 2 ^ 28 - progress.now.read)) }
{
    progress.count >= MOST_LINES || line.len() > MOST_BYTES.saturating_sub(progress.read)
}

/// Takes a step, and adds the line that tells its outcome.
fn take_step<L: Ledger>(
    alloc: Global,
    progress: &mut Progress,
    step: Step,
    steps: &mut Steps<L>,
) -> Result<(), AllocError>
    requires { HasGoodTrees step }
    ensures taken { OnOk result ((outcome : Outcome) × Takes step progress.old.machine progress.new.machine outcome × (string_bytes progress.new.out ≡ string_bytes progress.old.out ++ line_of outcome)) }
    ensures count { progress.new.count ≡ progress.old.count }
    ensures read { progress.new.read ≡ progress.old.read }
{
    let outcome = progress.machine.take(alloc, step, steps)?;
    push_line(alloc, &mut progress.out, &outcome)
}

/// Weaves the next line. A line that is no step, or is past a limit, changes nothing.
pub(crate) fn weave_line<L: Ledger>(
    alloc: Global,
    progress: &mut Progress,
    line: &[u8],
    steps: &mut Steps<L>,
) -> Result<(), StepFault>
    ensures ok { (start now : Option (List ℕ)) (lines : List (List ℕ)) → HasTold start now progress.old lines → OnOk result (HasTold start now progress.new (lines ++ line.now ∷ [])) }
    ensures same { IfErr result (λ fault. fault ≡ BadStep → progress.new ≡ progress.old) }
    ensures bad { (start now : Option (List ℕ)) (lines : List (List ℕ)) → HasTold start now progress.old lines → IfErr result (λ fault. fault ≡ BadStep → CantFollow lines line.now) }
{
    if is_past(progress, line) {
        return Err(StepFault::BadStep);
    }
    let step = match read_step(alloc, line_without_feed(line)) {
        Ok(step) => step,
        Err(fault) => return Err(fault),
    };
    take_step(alloc, progress, step, steps)?;
    progress.count += 1;
    progress.read += line.len();
    Ok(())
}
