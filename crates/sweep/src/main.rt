//! Writes how soon a script locks, over many keys of its noise. `sweep FIRST COUNT` reads a plan
//! and a script from standard input, as `counterlab run` does, or a halving plan and a script, as
//! `halvinglab run` does, plays the script with COUNT keys, those of the numbers from FIRST on, and
//! writes the plan's bound, and for each era a line for each first locked configuration that
//! occurs, with how many runs have it and the least number of these. The key of a number is the
//! number as 16 hex digits, and then 48 zeros.
//!
//! `--help` and `--version` write what they say. Other words are answered by one line of usage on
//! standard error, and what is refused by one line there. The exit codes are those of `counterlab`
//! and `halvinglab`. If standard error is a terminal, a line there says how many runs were played; it
//! is wiped before the sweep is written.
//!
//! What is read and written is proved, of [`asking::answer`], [`program_words::put_error`] and the
//! code of [`program_words::end`], that each run is counted once in an era, under its first locked
//! configuration ([`laws`]), and that the numbers of the line that says how far it is rise. Which
//! these are and when it comes, that the lines go to standard error, and whether that is a
//! terminal, is not.
//!
//! The runs are played in one room, one after the other, each until its first locked configurations
//! are known ([`sweeping::sweep`]). A runner of a plan is [`sweepable::Sweepable`], and so is one
//! of any machine. How far it is [`Progress`] says on a sink of its own.
#![tactic(auto)]

mod asking;
mod calling;
mod inputs;
mod keys;
mod laws;
mod noiseless;
mod on_machines;
mod playing;
mod progress;
mod reasons;
mod requests;
mod sweepable;
mod sweeping;
mod tallies;
mod tallying;
mod worked;
mod writing;

use crate::asking::answer;
use crate::progress::Progress;
use crate::reasons::SweepError;
use edge_io::{StdSink, StdSource};
use program_words::{arguments, end, words};
use std::io::{self, IsTerminal};
use std::process::ExitCode;

/// Does what the words ask for.
fn run(rt: &HostRuntime) -> Result<(), SweepError> {
    let arguments = arguments(rt)?;
    let mut source = StdSource::new(rt.stdin());
    let mut sink = StdSink::new(io::writer(rt));
    let stderr = rt.stderr();
    let shown = StdSink::new(io::writer(&stderr));
    let mut progress = Progress::new(b"sweep", shown, stderr.is_terminal());
    answer(
        rt.alloc(),
        words(&arguments),
        &mut source,
        &mut sink,
        &mut progress,
    )
}

fn main(rt: HostRuntime) -> ExitCode {
    end(&rt, run(&rt))
}
