//! The program of halving plans. `halvinglab plan` reads a halving plan from standard input and writes
//! its table: its numbers, from which round on its nodes count, what their states take, and a line
//! for each group of the tree of halves. `halvinglab run` reads such a plan and a script for it,
//! plays the script, and writes what the nodes show; `halvinglab slots` reads a slot table between
//! them, and writes which nodes hold. `halvinglab consensus`, `fire` and `log` read what is to be
//! agreed on between them, and write what comes of each slot. `halvinglab node` is a node of such a
//! plan: it reads a header, which has the plan, the node's id and its state, and then packets, and
//! writes the node's cell at the start and after each packet. `--help` and `--version` write what
//! they say.
//!
//! A plan that is refused is answered by one line, `refused halving line L premise P`, and a part
//! after it by `refused PART line L rule R`, which names `slots`, `agree`, `fire`, `log`, `script`
//! or `node`. What else fails is said in one line on standard error. The exit codes are those of
//! `counterlab`.
//!
//! What is read and written is proved, of [`calling::halvinglab`], [`program_words::put_error`] and
//! the code of [`program_words::end`]; that the line goes to standard error is not.
#![tactic(auto)]

mod asking;
mod calling;
mod node_word;
mod plan_word;
mod reasons;
mod requests;
mod run_word;
mod whole_word;
mod worked;

use crate::calling::halvinglab;
use crate::reasons::LabError;
use edge_io::{StdSink, StdSource};
use program_words::{arguments, end, words};
use std::io;
use std::process::ExitCode;

/// Does what the words ask for.
fn run(rt: &HostRuntime) -> Result<(), LabError> {
    let arguments = arguments(rt)?;
    let mut source = StdSource::new(rt.stdin());
    let mut sink = StdSink::new(io::writer(rt));
    halvinglab(rt.alloc(), words(&arguments), &mut source, &mut sink)
}

fn main(rt: HostRuntime) -> ExitCode {
    end(&rt, run(&rt))
}
