ghost use Rattle.std.specs.Prelude.{◌≡◌};
ghost use Rattle.sc_json.specs.Machine as m;
ghost use Rattle.sc_json.specs.Faults.{Answers};

use crate::fault::{JsonFault, StepFault};
use crate::runs::run;
use crate::state::{Mode, State};
use crate::step::{finish, step};
use crate::tree::Json;
use sc_base::Stack;
use std::alloc::Global;

fn at_place(fault: StepFault, place: u64) -> JsonFault
    ensures { result ≡ m.fault_of place fault }
{
    match fault {
        StepFault::Memory => JsonFault::OutOfMemory,
        StepFault::Refused => JsonFault::Syntax { at: place },
        StepFault::Duplicate { at } => JsonFault::Duplicate { at },
        StepFault::TooDeep { at } => JsonFault::TooDeep { at },
        StepFault::TooWide { at } => JsonFault::NumberTooWide { at },
    }
}

/// The tree that the bytes spell, whether they are UTF-8 or not.
fn read_all(alloc: Global, bytes: &[u8]) -> Result<Json, JsonFault>
    ensures { m.Reads result (m.read_of bytes.now) }
{
    let mut state = State {
        stack: Stack::new(alloc),
        mode: Mode::Value,
    };
    let mut at = 0;
    'reading: loop {
        at += run(&mut state, &bytes[at..], at)?;
        if at == bytes.len() {
            break 'reading;
        }
        match step(alloc, &mut state, at as u64, bytes[at]) {
            Err(fault) => return Err(at_place(fault, at as u64)),
            Ok(()) => at += 1,
        }
    }
    match finish(state) {
        Ok(tree) => Ok(tree),
        Err(fault) => Err(at_place(fault, bytes.len() as u64)),
    }
}

/// Reads a JSON text (RFC 8259). Numbers keep their literals and objects the order of their members.
///
/// The answer is the good tree that the bytes spell, where they spell one. Else it is their first fault, with its place:
/// `Syntax` at the length of the longest prefix that may begin a JSON text, `Duplicate` at the opening quote of a name that
/// its object has already, `TooDeep` at the bracket or brace that opens level 65, `NumberTooWide` at the first byte of a
/// number that `Dec` can't hold. Bytes that aren't UTF-8 are `NotUtf8` at the first byte that isn't part of a whole
/// character, before all others. `OutOfMemory` may stand in the place of any answer.
pub fn read_json(alloc: Global, bytes: &[u8]) -> Result<Json, JsonFault>
    ensures { Answers bytes.now result }
{
    match std::str::from_utf8(bytes) {
        Err(error) => Err(JsonFault::NotUtf8 {
            at: error.valid_up_to() as u64,
        }),
        Ok(_) => read_all(alloc, bytes),
    }
}
