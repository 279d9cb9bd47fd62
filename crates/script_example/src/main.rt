//! Runs the script of its standard input, and writes a line for what each of its steps gives. It ends with the status by which
//! `stacd page` tells the same ends: 0 done, 3 a bad step, whose line it tells, 4 the input failed, 5 the output failed, 6 memory
//! was wanting.
#![tactic(auto)]

ghost use Rattle.std.specs.Prelude.{◌≡◌, ◌<◌};

use sc_outside::{StdSink, StdSource, Steps};
use sc_weave::{WeaveEnd, weave};
use std::io::Write;
use std::marker::Brand;
use std::process::ExitCode;
use std::sync::ledger::{Blank, Ledger};

/// Runs the script. The steps of its searches are counted over the ledger that is handed in.
fn run<L: Ledger>(rt: &HostRuntime, blank: Blank) -> WeaveEnd
    requires name { blank.name ≡ L.name }
    requires parts { blank.parts ≡ L.parts }
    requires some { 0 < blank.parts }
{
    let mut input = StdSource::new(rt.stdin());
    let mut output = StdSink::new(rt.stdout());
    let mut steps: Steps<L> = Steps::new(blank);
    weave(rt.alloc(), &mut input, &mut output, &mut steps)
}

fn main(rt: HostRuntime) -> ExitCode {
    ExitCode::from(match run::<Brand>(&rt, Blank::new(1)) {
        WeaveEnd::Done => 0,
        WeaveEnd::BadStep { line } => {
            let mut errors = rt.stderr();
            let _ = writeln!(errors, "stacd: bad step {line}");
            3
        }
        WeaveEnd::ReadFault => 4,
        WeaveEnd::WriteFault => 5,
        WeaveEnd::OutOfMemory => 6,
    })
}
