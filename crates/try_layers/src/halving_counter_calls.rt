//! Single steps against those of a computation in another language, and whole runs with liars.

use crate::drawn_states::{Numbers, STRAYS, digested, draw_all};
use crate::halving_plan_calls::plan_of;
use counter_core::Heard;
use halving_plan::{HalvingPlan, advance, can_hear, output, zero};
use majority_votes::Tally;
use std::alloc::Global;
use std::process::Abort;
use std::test::Fail;
use sync_types::{NoMemory, NodeState};

/// Makes a step, which may be made.
fn step(
    rt: &impl Abort,
    plan: &HalvingPlan,
    node: u32,
    heard: &Heard<'_>,
    values: &mut Tally,
    out: &mut NodeState,
) {
    assert!(rt; node < plan.nodes() && can_hear(plan, heard) && out.depth() == plan.depth());
    assert!(rt; values.capacity() >= plan.nodes() as usize);
    advance(plan, node, heard, values, out);
}

/// Draws what a node hears, makes its step, and digests its new state.
fn step_of_case(
    rt: &impl Abort,
    alloc: Global,
    plan: &HalvingPlan,
    case: u64,
    digest: u64,
) -> Result<u64, NoMemory> {
    let mut numbers = Numbers::new(case);
    let mut states = NodeState::zeros(alloc, plan.nodes(), plan.depth())?;
    let mut values = Tally::new(alloc, 256).map_err(|_| NoMemory)?;
    let mut out = zero(plan, alloc)?;
    let strays = STRAYS[(case.wrapping_sub(1) % 4) as usize];
    draw_all(rt, &mut numbers, plan, strays, &mut states);
    let node = (numbers.draw() % u64::from(plan.nodes().max(1))) as u32;
    step(rt, plan, node, &Heard::of(&states), &mut values, &mut out);
    Ok(digested(digest, &out))
}

/// Nodes, faults and modulus, and what bench/tools/halving_steps.py digests of forty steps.
const DIGESTS: [(u64, u64, u64, u64); 10] = [
    (1, 0, 7, 0xd8ef_773f_abcf_3282),
    (4, 1, 10, 0x608e_0656_b13f_ce70),
    (5, 1, 2, 0x2fcc_2cd2_85c6_073a),
    (7, 2, 10, 0xcd9f_2401_e926_8052),
    (10, 3, 1000, 0xf6ad_1868_59cb_88b4),
    (13, 4, 10, 0x3f34_2e62_a45d_4c29),
    (15, 4, 7, 0xaf3c_2c4d_b783_c6ed),
    (22, 7, 3, 0x8b22_e0b6_65af_994a),
    (40, 13, 1 << 40, 0xa395_c8d0_6ee1_6112),
    (256, 85, 12, 0x2666_db7f_c758_9d03),
];

#[test]
fn steps_are_those_of_another_computation(rt: HostRuntime) -> Result<(), Fail> {
    let mut case: u64 = 0;
    for (nodes, faults, modulus, wanted) in &DIGESTS {
        let plan = plan_of(&rt, *nodes, *faults, *modulus);
        let mut digest = 0xcbf2_9ce4_8422_2325;
        for _ in 0..40 {
            case = case.wrapping_add(1);
            digest = step_of_case(&rt, rt.alloc(), &plan, case, digest)?;
        }
        assert!(rt; digest == *wanted, "{nodes} nodes");
    }
    Ok(())
}

/// Copies a state over one of the same depth.
fn copy(rt: &impl Abort, from: &NodeState, to: &mut NodeState) {
    assert!(rt; from.depth() == to.depth());
    to.copy_from(from);
}

/// The states of a run with liars, that say something else to each node in each round.
struct Playing {
    numbers: Numbers,
    strays: u64,
    liars: Vec<bool>,
    states: Vec<NodeState>,
    next: Vec<NodeState>,
    lies: Vec<NodeState>,
    heard: Vec<NodeState>,
    values: Tally,
}

impl Drop for Playing {
    fn drop(self) {
        let Playing {
            numbers: _,
            strays: _,
            liars: _,
            states: _,
            next: _,
            lies: _,
            heard: _,
            values: _,
        } = self;
    }
}

impl Playing {
    /// Begins a run in drawn states; bit V of `marks` says whether node V lies.
    fn begin(
        rt: &impl Abort,
        alloc: Global,
        plan: &HalvingPlan,
        marks: u64,
        case: u64,
    ) -> Result<Playing, NoMemory> {
        let mut numbers = Numbers::new(case);
        let strays = STRAYS[(case % 4) as usize];
        let mut states = NodeState::zeros(alloc, plan.nodes(), plan.depth())?;
        draw_all(rt, &mut numbers, plan, strays, &mut states);
        let mut liars = Vec::with_capacity(alloc, 64)?;
        for node in 0..plan.nodes().min(63) {
            let lies = marks.wrapping_shr(node) % 2 == 1;
            liars.push(lies).map_err(|_| NoMemory)?;
        }
        Ok(Playing {
            numbers,
            strays,
            liars,
            states,
            next: NodeState::zeros(alloc, plan.nodes(), plan.depth())?,
            lies: NodeState::zeros(alloc, plan.nodes(), plan.depth())?,
            heard: NodeState::zeros(alloc, plan.nodes(), plan.depth())?,
            values: Tally::new(alloc, 256).map_err(|_| NoMemory)?,
        })
    }

    /// Plays one round.
    fn round(&mut self, rt: &impl Abort, plan: &HalvingPlan) {
        for (heard, state) in self.heard.iter_mut().zip(&self.states) {
            copy(rt, state, heard);
        }
        let mut node: u32 = 0;
        for out in self.next.iter_mut() {
            draw_all(rt, &mut self.numbers, plan, self.strays, &mut self.lies);
            for ((heard, lie), lies) in self.heard.iter_mut().zip(&self.lies).zip(&self.liars) {
                if *lies {
                    copy(rt, lie, heard);
                }
            }
            step(
                rt,
                plan,
                node,
                &Heard::of(&self.heard),
                &mut self.values,
                out,
            );
            node = node.wrapping_add(1);
        }
        std::mem::swap(&mut self.states, &mut self.next);
    }

    /// Whether all correct nodes have one finite and marked register.
    fn is_locked(&self, rt: &impl Abort) -> bool {
        let mut common: Option<u64> = None;
        for (state, lies) in self.states.iter().zip(&self.liars) {
            if !*lies {
                assert!(rt; 0 < state.depth());
                let reg = state.reg(0);
                if reg.a.is_none() || !reg.d || common.is_some() && common != reg.a {
                    return false;
                }
                common = reg.a;
            }
        }
        true
    }
}

/// Plays a run to a few rounds after the bound, and answers the first round from which on it is
/// locked.
fn locked_from(
    rt: &impl Abort,
    alloc: Global,
    plan: &HalvingPlan,
    marks: u64,
    case: u64,
) -> Result<u64, NoMemory> {
    let mut playing = Playing::begin(rt, alloc, plan, marks, case)?;
    let mut locked: u64 = 0;
    for round in 0..plan.bound().min(1000) + 5 {
        if !playing.is_locked(rt) {
            locked = round + 1;
        }
        playing.round(rt, plan);
    }
    Ok(locked)
}

/// Nodes, faults and liars: few of each half, more than one half tolerates, and spares.
const RUNS: [(u64, u64, u64); 10] = [
    (4, 1, 0b1),
    (4, 1, 0b10),
    (4, 1, 0b1000),
    (7, 2, 0b11),
    (7, 2, 0b10010),
    (7, 2, 0b110_0000),
    (13, 4, 0b1111),
    (13, 4, 0b111_1000_0000),
    (13, 4, 0b10_1001_0010_0000),
    (13, 4, 0b1_0000_0001_0011),
];

#[test]
fn correct_nodes_are_locked_at_the_bound(rt: HostRuntime) -> Result<(), Fail> {
    let mut case: u64 = 1000;
    for (nodes, faults, marks) in &RUNS {
        let plan = plan_of(&rt, *nodes, *faults, 10);
        for _ in 0..6 {
            case = case.wrapping_add(1);
            let locked = locked_from(&rt, rt.alloc(), &plan, *marks, case)?;
            assert!(rt;
                locked <= plan.bound(),
                "{nodes} nodes, case {case}: {locked}"
            );
        }
    }
    Ok(())
}

#[test]
fn zero_is_shown(rt: HostRuntime) -> Result<(), Fail> {
    let plan = plan_of(&rt, 4, 1, 10);
    let state = zero(&plan, rt.alloc())?;
    assert!(rt; state.depth() == plan.depth());
    assert!(rt; output(&plan, &state) == 0);
    Ok(())
}
