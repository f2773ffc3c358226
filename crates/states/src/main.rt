//! Turns states of nodes from hex digits into words, and from words into hex digits. It reads a
//! plan from standard input, a line `values V` after it for each register of a layer, and then
//! lines `node V H` or `node V number X registers R, R`, and writes the other form of each to
//! standard output.
//!
//! `--help` and `--version` write what they say. Other words are answered by one line of usage on
//! standard error, and what is refused by one line there. The exit codes are those of `counterlab`,
//! and 1 for any line that is refused.
//!
//! What is read, and what is written of each line or why it is refused, is proved, of
//! [`asking::answer`]; the line of an error of [`program_words::put_error`], and its code of
//! [`program_words::end`].
#![tactic(auto)]

mod asking;
mod calling;
mod faults;
mod laws;
mod layers;
mod reading;
mod reasons;
mod requests;
mod shaped;
mod turning;
mod writing;

use crate::asking::answer;
use crate::reasons::StateError;
use edge_io::{StdSink, StdSource};
use program_words::{arguments, end, words};
use std::io;
use std::process::ExitCode;

/// Does what the words ask for.
fn run(rt: &HostRuntime) -> Result<(), StateError> {
    let arguments = arguments(rt)?;
    let mut source = StdSource::new(rt.stdin());
    let mut sink = StdSink::new(io::writer(rt));
    answer(rt.alloc(), words(&arguments), &mut source, &mut sink)
}

fn main(rt: HostRuntime) -> ExitCode {
    end(&rt, run(&rt))
}
