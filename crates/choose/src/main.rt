//! Writes which plans are worth choosing between. `choose FAULTS MODULUS [MOST_NODES]` writes, of
//! all accepted plans of both constructions that tolerate at least so many faults within so many
//! nodes (256 if they are left out), the front of nodes and bound. Each line is a plan with its
//! numbers and its text; the next one has more nodes and a lesser bound. No accepted plan is better
//! than all lines: each has at least the nodes and the bound of one of them. With the word
//! `boosting` before, it looks at the plans of `counterlab` alone, of either version. With the word
//! `plan` after, it writes the plan of the last line alone, in lines. It writes `none` if there is
//! no such plan, and a line on standard error then says how many nodes the faults take, and how
//! many faults the nodes tolerate.
//!
//! `choose within NODES BOUND MODULUS` writes, of all accepted plans of both constructions with at
//! most so many nodes and a bound of at most so many rounds, the line of one that tolerates the
//! most faults.
//!
//! `--help` and `--version` write what they say. Other words are answered by one line of usage on
//! standard error. The exit codes are those of `counterlab`.
//!
//! What [`choosing::choose`] and [`choosing::explain_none`] write is proved, and so are the line of
//! an error, by [`program_words::put_error`], and its code, by [`program_words::end`]. That `main`
//! hands on the words and writes the lines on standard error is tried, and not proved.
#![tactic(auto)]

mod any_plans;
mod choosing;
mod fronts;
mod fronts_of_both;
mod laws;
mod most_faults;
mod reasons;
mod requests;
mod searching;
mod shortages;
mod writing;
mod writing_both;

use crate::choosing::{choose, explain_none};
use crate::reasons::ChooseError;
use edge_io::StdSink;
use program_words::{arguments, end, words};
use std::io;
use std::process::ExitCode;

/// Does what the words ask for. If there is no plan for them, standard error says why.
fn run(rt: &HostRuntime) -> Result<(), ChooseError> {
    let arguments = arguments(rt)?;
    let mut sink = StdSink::new(io::writer(rt));
    choose(rt.alloc(), words(&arguments), &mut sink)?;
    let stderr = rt.stderr();
    let mut remarks = StdSink::new(io::writer(&stderr));
    // If it cannot be said, the answer alone stands.
    let _ = explain_none(rt.alloc(), words(&arguments), &mut remarks);
    Ok(())
}

fn main(rt: HostRuntime) -> ExitCode {
    end(&rt, run(&rt))
}
