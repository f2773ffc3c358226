//! All nodes of a run, each given what it hears, in which as many nodes lie as may, from any states
//! to some rounds after the bound.

use crate::calling::{Program, is_answered};
use crate::cases::Case;
use crate::drawn_nodes::{header, shape_of};
use crate::drawn_plans::{AnyPlan, Source};
use crate::drawn_scripts::Length;
use crate::draws::Draws;
use reference::constructions::{Construction, Shape};
use reference::layers::Part;
use reference::nodes::{put_cell, put_state};
use reference::numbers::remainder;
use reference::runs::{Played, Run};
use reference::states::State;
use std::alloc::{AllocError, Global};

/// For about how many rounds a run goes on after the bound.
const BEHIND: u64 = 24;

/// How many halving plans are drawn.
const DRAWN: u64 = 14;

/// Whether a configuration of nodes that count by a modulus is as it should be, with the correct
/// nodes locked at `now`, if they are, and at `before` in the configuration before: a lock goes on
/// and counts, and from the bound on there is one.
fn is_due(modulus: u64, before: Option<u64>, now: Option<u64>, is_bound: bool) -> bool {
    match before {
        Some(value) => now == Some(remainder(value.wrapping_add(1), modulus)),
        None => now.is_some() || !is_bound,
    }
}

/// What the correct nodes show in a locked configuration.
fn locked_at<C: Construction>(run: &Run<C>) -> Option<u64> {
    for node in 0..run.played.shape.numbers.nodes {
        if run.is_locked() && !run.is_faulty(node) {
            return Some(run.output(node));
        }
    }
    None
}

/// What each node of a run reads, its header and packets, and what it is to write.
fn begun<C: Construction>(
    alloc: Global,
    program: Program,
    run: &Run<C>,
) -> Result<Vec<Case>, AllocError> {
    let Played { plan, shape, .. } = *run.played;
    let mut nodes = Vec::new(alloc);
    for (node, state) in run.config.iter().enumerate() {
        let node = node as u64;
        let fields = shape.fields(node);
        let bits = fields.written(state);
        let start = bits.bytes(fields.bytes());
        let mut wanted = Vec::new(alloc);
        put_cell(&mut wanted, start)?;
        nodes.push(Case {
            program,
            word: "node",
            input: header(alloc, plan, node, start)?,
            wanted,
            code: 0,
        })?;
    }
    Ok(nodes)
}

/// Puts a packet of states.
fn put_packet(bytes: &mut Vec<u8>, shape: &Shape, heard: &[State]) -> Result<(), AllocError> {
    for (sender, state) in heard.iter().enumerate() {
        put_state(bytes, shape, sender as u64, state)?;
    }
    Ok(())
}

/// Plays a round, in which each node is given what it hears.
fn round<C: Construction>(run: &mut Run<C>, nodes: &mut Vec<Case>) -> Result<(), AllocError> {
    let shape = run.played.shape;
    for (node, case) in nodes.iter_mut().enumerate() {
        put_packet(&mut case.input, shape, run.hear(node as u64))?;
    }
    run.round();
    for (node, case) in nodes.iter_mut().enumerate() {
        if let Some(state) = run.config.get(node) {
            put_state(&mut case.wanted, shape, node as u64, state)?;
        }
    }
    Ok(())
}

/// Plays a run to its end. The answer is the first locked configuration, if each was as it should
/// be, else the first that was not.
fn play<C: Construction>(
    run: &mut Run<C>,
    nodes: &mut Vec<Case>,
) -> Result<Result<u64, u64>, AllocError> {
    let numbers = run.played.shape.numbers;
    let mut before = None;
    let mut first = 0u64;
    for at in 0..=run.played.script.rounds {
        let now = locked_at(run);
        if !is_due(numbers.modulus, before, now, at >= numbers.bound) {
            return Ok(Err(at));
        }
        if now.is_none() {
            first = at.wrapping_add(1);
        }
        before = now;
        round(run, nodes)?;
    }
    Ok(Ok(first))
}

/// How many nodes write what they should, of all packets that they were given.
fn right_nodes(rt: &HostRuntime, nodes: &[Case]) -> anyhow::Result<u64> {
    let mut right = 0u64;
    for case in nodes {
        right = right.wrapping_add(u64::from(is_answered(rt, case)?));
    }
    Ok(right)
}

/// Plays a run of a plan of a program, and prints how it went.
fn try_plan<C: Construction>(
    rt: &HostRuntime,
    draws: &mut Draws,
    program: Program,
    plan: &C,
) -> anyhow::Result<()> {
    let shape = shape_of(rt.alloc(), plan)?;
    let version = 1;
    let behind = BEHIND;
    let script = draws.script(&shape, Length { version, behind })?;
    let played = Played {
        plan,
        shape: &shape,
        script: &script,
        part: &Part::Rows,
    };
    let mut run = Run::begin(rt.alloc(), &played)?;
    let mut nodes = begun(rt.alloc(), program, &run)?;
    let ended = play(&mut run, &mut nodes)?;
    let right = right_nodes(rt, &nodes)?;
    let (all, liars, bound) = (nodes.len(), script.faulty.len(), shape.numbers.bound);
    print!(rt; "{all} processes, {liars} faulty, bound {bound}: ")?;
    match ended {
        Ok(first) => print!(rt; "locked from {first}")?,
        Err(at) => print!(rt; "NOT LOCKED at {at}")?,
    }
    println!(rt; ", {right} of {all} agree")?;
    Ok(())
}

/// Plays a run of a plan from a source.
fn try_source(rt: &HostRuntime, draws: &mut Draws, source: Source) -> anyhow::Result<()> {
    match &draws.plan(source)? {
        AnyPlan::Boosting(plan) => try_plan(rt, draws, Program::Counterlab, plan),
        AnyPlan::Halving(plan) => try_plan(rt, draws, Program::Halvinglab, plan),
    }
}

/// Tries runs.
pub fn try_processes(rt: &HostRuntime, draws: &mut Draws) -> anyhow::Result<()> {
    for row in &crate::given_plans::WITH_SLOTS {
        try_source(rt, draws, Source::Given(*row))?;
    }
    for faults in 1..=4 {
        try_source(rt, draws, Source::Fewest(faults))?;
        try_source(rt, draws, Source::Fewest(faults))?;
    }
    for _ in 0..DRAWN {
        try_source(rt, draws, Source::Halving(40))?;
    }
    Ok(())
}
