//! Writes what the nodes of a script's run hold and hear. `trace FROM TO [NODE ..]` reads a plan
//! and a script from standard input, as `counterlab run` does, or a halving plan and a script, as
//! `halvinglab run` does. It writes of each configuration from FROM to TO, and of each node that is
//! named, or of all, a line of its state and one of each level, or of each group with halves, in
//! which it is.
//!
//! [`tracing::put_trace`] plays a script on a boosting plan, and
//! [`halving_tracing::put_halving_trace`] one on a halving plan, and both write the lines of the
//! wanted configurations and nodes. The texts are defined in specs/: by the construction's own votes,
//! lead, position and counts, and of a halving plan by its level states, and by which half a node
//! follows.
//!
//! `--help` and `--version` write what they say. Other words are answered by one line of usage on
//! standard error, and what is refused by one line there. The exit codes are those of `counterlab`
//! and `halvinglab`.
//!
//! All that is proved, of [`asking::answer`], [`program_words::put_error`] and the code of
//! [`program_words::end`]; that the line goes to standard error is not.
#![tactic(auto)]

mod answering;
mod asking;
mod calling;
mod counted;
mod desks;
mod group_lines;
mod group_views;
mod halving_desks;
mod halving_node_lines;
mod halving_tracing;
mod headings;
mod laws;
mod level_groups;
mod level_lines;
mod level_parts;
mod line_words;
mod naming;
mod node_lines;
mod of_boosting;
mod of_halving;
mod places;
mod reasons;
mod requests;
mod rooms;
mod sides;
mod tracing;
mod views;
mod wants;

use crate::asking::answer;
use crate::reasons::TraceError;
use edge_io::{StdSink, StdSource};
use program_words::{arguments, end, words};
use std::io;
use std::process::ExitCode;

/// Does what the words ask for.
fn run(rt: &HostRuntime) -> Result<(), TraceError> {
    let arguments = arguments(rt)?;
    let mut source = StdSource::new(rt.stdin());
    let mut sink = StdSink::new(io::writer(rt));
    answer(rt.alloc(), words(&arguments), &mut source, &mut sink)
}

fn main(rt: HostRuntime) -> ExitCode {
    end(&rt, run(&rt))
}
