//! The program: the workbench over standard input and standard output. It prints nothing itself,
//! and ends with the exit code of the status.
#![tactic(auto)]

use edge_io::{StdSink, StdSource};
use program_words::{arguments, exit_code, words};
use std::io;
use std::process::ExitCode;
use sync_types::Status;
use workbench::counterlab;

/// The status that the program ends with.
fn run(rt: &HostRuntime) -> Status {
    let Ok(arguments) = arguments(rt) else {
        return Status::NoMemory;
    };
    let mut source = StdSource::new(rt.stdin());
    let mut sink = StdSink::new(io::writer(rt));
    counterlab(rt.alloc(), words(&arguments), &mut source, &mut sink)
}

fn main(rt: HostRuntime) -> ExitCode {
    exit_code(run(&rt))
}
