//! Compares what the workbench and the calls of halving plans answer with a plain and slow
//! computation of what plans of both constructions, states, scripts and the parts between mean,
//! which shares no code with them: runs from any start in which the most nodes lie, of several
//! eras, some of which go on after the bound; runs with a slot table or a layer; and nodes, alone
//! and all of a run, which lock by the bound. What is tried is drawn, the same each time. Besides,
//! each read and each write of a node of a halving plan fails in turn. With the arguments
//! `spend N` the program makes one call of such a node alone, after N allocations.
#![tactic(auto)]

mod calling;
mod cases;
mod drawn_nodes;
mod drawn_parts;
mod drawn_plans;
mod drawn_scripts;
mod drawn_states;
mod draws;
mod fault_trials;
mod given_plans;
mod memory_trial;
mod processes;
mod script_trials;
mod step_trials;

use crate::draws::Draws;
use crate::fault_trials::try_faults;
use crate::memory_trial::try_node;
use crate::processes::try_processes;
use crate::script_trials::try_scripts;
use crate::step_trials::try_steps;
use std::{env, io};

/// The arguments after the program's own name.
fn arguments(rt: &HostRuntime) -> io::Result<Vec<String>> {
    let mut arguments = Vec::new(rt.alloc());
    for argument in env::args(rt)?.skip(1) {
        arguments.push(argument)?;
    }
    Ok(arguments)
}

fn main(rt: HostRuntime) -> anyhow::Result<()> {
    let arguments = arguments(&rt)?;
    if let [word, count] = arguments.as_slice() {
        if word.as_str() == "spend" {
            return try_node(&rt, count.as_str().parse::<u64>()?);
        }
    }
    try_faults(&rt)?;
    let mut draws = Draws::new(rt.alloc());
    try_steps(&rt, &mut draws)?;
    try_processes(&rt, &mut draws)?;
    try_scripts(&rt, &mut draws)
}
