//! Nodes that hear some packets of states, which are near to one another.

use crate::calling::{Program, is_answered};
use crate::cases::Case;
use crate::drawn_nodes::counting;
use crate::drawn_plans::{AnyPlan, Source};
use crate::draws::Draws;
use crate::given_plans::SPARES;
use reference::halving_groups::Group;
use reference::nodes::MOST_PACKETS;
use std::alloc::AllocError;

/// How many nodes are tried of each source, with plans that are drawn anew.
const NODES: u64 = 120;

/// How many packets a node hears at most.
const PACKETS: u64 = 14;

/// How many single steps are tried of each plan of many nodes.
const STEPS: u64 = 40;

/// From where plans are drawn.
const SOURCES: [(&str, Source); 4] = [
    ("boosting plans 1", Source::Boosting(1)),
    ("boosting plans 2", Source::Boosting(2)),
    ("boosting plan with spares", Source::Given(SPARES)),
    ("halving plans", Source::Halving(40)),
];

/// Nodes, faults and modulus of other halving plans.
const PLANS: [(u64, u64, u64); 6] = [
    (1, 0, 7),
    (22, 7, 3),
    (40, 13, 1 << 40),
    (74, 24, 25),
    (121, 40, 26),
    (256, 85, 12),
];

/// What a node of a plan answers.
fn node_on(draws: &mut Draws, plan: &AnyPlan) -> Result<Case, AllocError> {
    match plan {
        AnyPlan::Boosting(plan) => draws.node(Program::Counterlab, plan, PACKETS),
        AnyPlan::Halving(plan) => draws.node(Program::Halvinglab, plan, PACKETS),
    }
}

/// Tries nodes of plans from a source.
fn try_source(
    rt: &HostRuntime,
    draws: &mut Draws,
    name: &str,
    source: Source,
) -> anyhow::Result<()> {
    let mut same = 0u64;
    for _ in 0..NODES {
        let plan = draws.plan(source)?;
        let case = node_on(draws, &plan)?;
        same = same.wrapping_add(u64::from(is_answered(rt, &case)?));
    }
    println!(rt; "{name}: {same} of {NODES} nodes agree")?;
    Ok(())
}

/// Tries single steps of nodes of a plan.
fn try_plan(rt: &HostRuntime, draws: &mut Draws, plan: &Group) -> anyhow::Result<()> {
    let mut same = 0u64;
    for _ in 0..STEPS {
        let case = draws.node(Program::Halvinglab, plan, 1)?;
        same = same.wrapping_add(u64::from(is_answered(rt, &case)?));
    }
    let (nodes, faults) = (plan.nodes, plan.faults);
    println!(rt; "{nodes} nodes, {faults} faults: {same} of {STEPS} steps agree")?;
    Ok(())
}

/// Tries nodes, the most packets, and one more.
pub fn try_steps(rt: &HostRuntime, draws: &mut Draws) -> anyhow::Result<()> {
    for (name, source) in &SOURCES {
        try_source(rt, draws, name, *source)?;
    }
    for (nodes, faults, modulus) in &PLANS {
        try_plan(rt, draws, &Group::of(*nodes, *faults, *modulus))?;
    }
    let most = is_answered(rt, &counting(rt.alloc(), MOST_PACKETS, 0)?)?;
    let more = MOST_PACKETS.wrapping_add(1);
    let more = is_answered(rt, &counting(rt.alloc(), more, 8)?)?;
    println!(rt; "{MOST_PACKETS} packets: {most}, and one more: {more}")?;
    Ok(())
}
