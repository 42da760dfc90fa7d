//! The program `far`: it passes its words and the standard streams to `far_engine::program`, and ends with the exit status.
#![tactic(auto)]

ghost use Rattle.std.specs.Prelude.{◌≡◌, ◌<◌, ℕ};

use far_engine::{FarFault, program, report, status};
use far_io::{StdSink, StdSource};
use ratio128::Steps;
use std::alloc::Global;
use std::env;
use std::io::ErrorKind;
use std::marker::Brand;
use std::process::ExitCode;
use std::rt::Env;
use std::sync::ledger::{Blank, Ledger};

// The words after the program's name. If one of them is not text there are none, which is not a command.
fn words(rt: &HostRuntime) -> Result<Vec<String>, FarFault> {
    let mut args = match env::args(rt) {
        Ok(args) => args,
        Err(error) if error.kind() == ErrorKind::OutOfMemory => return Err(FarFault::Memory),
        Err(_) => return Ok(Vec::new(rt.alloc())),
    };
    let _ = args.next();
    match args.collect(rt.alloc()) {
        Ok(words) => Ok(words),
        Err(_) => Err(FarFault::Memory),
    }
}

// The whole run, with a new counter of steps.
fn run_counted<L: Ledger>(rt: &HostRuntime, blank: Blank) -> u8
    requires name { blank.name ≡ L.name }
    requires parts { blank.parts ≡ L.parts }
    requires some { 0 < blank.parts }
{
    let mut errors = StdSink::new(rt.stderr());
    let words = match words(rt) {
        Ok(words) => words,
        Err(fault) => {
            let _ = report(&fault, &mut errors);
            return status(&fault);
        }
    };
    let mut source = StdSource::new(rt.stdin());
    let mut sink = StdSink::new(rt.stdout());
    let mut steps = Steps::start(blank.open::<L>());
    program(
        rt.alloc(),
        &words,
        &mut source,
        &mut sink,
        &mut errors,
        &mut steps,
    )
}

fn main(rt: HostRuntime) -> ExitCode {
    ExitCode::from(run_counted::<Brand>(&rt, Blank::new(1)))
}
