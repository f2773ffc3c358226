//! Draws what `counterlab run`, `trace`, `sweep` or `choose` writes: of a run and of a trace a
//! picture in SVG with a column for each configuration and a line of cells for each node; of a
//! trace also a strip for each level, or each group of a halving plan, with the kings' turns above
//! it; of a sweep bars, and of a choice a point for each plan. It reads standard input and writes
//! standard output; with `--page` it writes a page for a browser. What it draws is said in
//! [`run_pictures`].
//!
//! `--help` and `--version` write what they say. Other words are answered by one line of usage on
//! standard error, and what is refused by one line there, which has at most 200 bytes of what was
//! read, and no others than can be printed. The exit codes are those of `counterlab`, and 1 for any
//! input that is refused.
//!
//! What is read and written is proved, of [`asking::answer`], [`program_words::put_error`] and the
//! code of [`program_words::end`]; that the line goes to standard error, and what it says of an
//! input that is not drawn, is not.
#![tactic(auto)]

mod asking;
mod calling;
mod echoes;
mod reasons;
mod requests;

use crate::asking::answer;
use crate::reasons::NotDrawn;
use edge_io::{StdSink, StdSource};
use program_words::{arguments, end, words};
use std::io;
use std::process::ExitCode;

/// Does what the words ask for.
fn run(rt: &HostRuntime) -> Result<(), NotDrawn> {
    let arguments = arguments(rt)?;
    let mut source = StdSource::new(rt.stdin());
    let mut sink = StdSink::new(io::writer(rt));
    answer(rt.alloc(), words(&arguments), &mut source, &mut sink)
}

fn main(rt: HostRuntime) -> ExitCode {
    end(&rt, run(&rt))
}
