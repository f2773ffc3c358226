//! Finds a script that keeps a plan from counting for long. `attack SEED RUNS [KIND ..]` reads a
//! plan of either construction from standard input, tries RUNS attacks on it, of the kinds that are
//! named or of all, and writes the plan and, after it, the attack whose first configuration that is
//! locked comes latest, as a script for the plan: `counterlab run` plays it, or `halvinglab run` if
//! it is a halving plan. What is tried depends on the plan, SEED, RUNS and the kinds alone.
//!
//! After that a line on standard error says which configuration of the attack is the first locked
//! one, and the plan's bound: `locked L of T`, or `locked none of T`. `--help` and `--version`
//! write what they say. Other words are answered by one line of usage on standard error, and what
//! is refused by one line there. The exit codes are those of `counterlab`.
//!
//! All that is proved, of [`asking::answer`], [`program_words::put_error`], the code of
//! [`program_words::end`] and [`noting::put_note`]; that the lines go to standard error, and after
//! the answer, is not.
//!
//! An [`Attack`] is what a script of an adversary says: who is faulty, how nodes start, and what
//! the faulty nodes say; it has a text for each machine. A [`Maker`] makes the candidates of a
//! search, each by its number and the best one so far. [`Drawing`] draws them: at first by
//! [`Kind`], and then as the best one with a small change. All that it draws depends on a seed.
//!
//! A [`Target`] is what is attacked. [`Target::search`] tries the attacks of a maker: the text of
//! each is read as a script and played, and the one that locks latest is kept. [`Target::finish`]
//! takes lies out that it does not need, and has it show the configurations to its lock.
#![tactic(auto)]

mod asking;
mod attack_texts;
mod calling;
mod candidates;
mod changes;
mod drawing;
mod drawn_lines;
mod draws;
mod faulty_ids;
mod finding;
mod kinds;
mod laws;
mod leaning;
mod makers;
mod noting;
mod plans;
mod reading;
mod reasons;
mod requests;
pub mod search_laws;
mod searching;
mod shapes;
mod targets;
mod trying;

use crate::asking::answer;
use crate::noting::put_note;
use crate::reasons::AttackError;
use edge_io::{StdSink, StdSource};
use program_words::{arguments, end, words};
use std::io;
use std::process::ExitCode;

/// Does what the words ask for. After an attack a line on standard error says when it locks.
fn run(rt: &HostRuntime) -> Result<(), AttackError> {
    let arguments = arguments(rt)?;
    let mut source = StdSource::new(rt.stdin());
    let mut sink = StdSink::new(io::writer(rt));
    let said = answer(rt.alloc(), words(&arguments), &mut source, &mut sink)?;
    if let Some(found) = said {
        let stderr = rt.stderr();
        // If it cannot be said, the answer alone stands.
        let _ = put_note(&mut StdSink::new(io::writer(&stderr)), found);
    }
    Ok(())
}

fn main(rt: HostRuntime) -> ExitCode {
    end(&rt, run(&rt))
}
