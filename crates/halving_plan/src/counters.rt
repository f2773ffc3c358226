ghost use Rattle.std.specs.Prelude.{◌≡◌, ℕ, ◌<◌, ◌≤◌, ◌↔◌, IsTrue, IfOk, All, length};
ghost use Rattle.sync_types.specs.States.{zero_state};
ghost use Rattle.construction.specs.Steps.{state_of};
ghost use Rattle.halving_plan.specs.Steps.{tree_depth, shown_in, step_of};
ghost use Rattle.halving_plan.specs.Runs.{IsState};
ghost use Rattle.counter_core.specs.Meanings.{written, cut};
ghost use Rattle.halving_plan.specs.Plans.{tree_of};
ghost use Rattle.halving_plan.specs.GroupStates.{IsDeep, CanHear};

use crate::HalvingPlan;
use crate::steps::step_group;
use counter_core::{Heard, clear};
use majority_votes::Tally;
use state_codec::Packed;
use std::alloc::Global;
use sync_types::{NoMemory, NodeState};

/// Whether each of so many states has this many registers.
fn are_deep(heard: &Heard<'_>, nodes: u32, depth: usize) -> bool
    requires { length heard.now ≡ nodes }
    ensures { IsTrue result ↔ All (λ s. depth ≤ length s.registers) heard.now }
{
    for node in 0..nodes {
        if heard.state(node).depth() < depth {
            return false;
        }
    }
    true
}

/// Whether a node may hear this: a state of each node, with all registers.
pub fn can_hear(plan: &HalvingPlan, heard: &Heard<'_>) -> bool
    ensures { IsTrue result ↔ CanHear plan.now heard.now }
{
    heard.len() == plan.nodes() as usize && are_deep(heard, plan.nodes(), plan.depth())
}

/// What a state shows.
pub fn output(plan: &HalvingPlan, state: &NodeState) -> u64
    requires { IsDeep plan.now state.now }
    ensures { result ≡ shown_in (tree_of plan.now) state.now }
{
    if plan.faults() == 0 {
        state.x()
    } else {
        state.reg(0).a.unwrap_or(0)
    }
}

/// What a node shows in the current configuration.
pub fn output_in(plan: &HalvingPlan, v: u32, states: &Packed) -> u64
    requires node { v < length states.now.current }
    requires deep { tree_depth (tree_of plan.now) ≤ states.now.shape.depth }
    ensures { result ≡ shown_in (tree_of plan.now) (state_of states.now.current v) }
{
    if plan.faults() == 0 {
        states.x(v)
    } else {
        states.reg(v, 0).a.unwrap_or(0)
    }
}

/// The state of which each number is zero. It is one of each node.
pub fn zero(plan: &HalvingPlan, alloc: Global) -> Result<NodeState, NoMemory>
    ensures zero { IfOk result (λ state. state ≡ zero_state (tree_depth (tree_of plan.now))) }
    ensures each { IfOk result
        (λ state. (node : ℕ) → IsState (tree_of plan.now) plan.now.modulus node state) }
{
    plan.facts();
    NodeState::zero(alloc, plan.depth())
}

/// Makes the step of a node, from what it hears of all nodes, whatever these states are. It takes
/// no memory: `values` has room for all nodes' values. It writes the number and the registers of
/// the plan, and leaves further registers of `out` as they are.
pub fn advance(
    plan: &HalvingPlan,
    node: u32,
    heard: &Heard<'_>,
    values: &mut Tally,
    out: &mut NodeState,
)
    requires node { node < plan.now.nodes }
    requires heard { CanHear plan.now heard.now }
    requires room { plan.now.nodes ≤ values.old.capacity }
    requires out { IsDeep plan.now out.old }
    ensures out { out.new ≡ written (tree_depth (tree_of plan.now))
        (step_of (tree_of plan.now) plan.now.modulus node heard.now) out.old }
    ensures state { IsState (tree_of plan.now) plan.now.modulus node
        (cut (tree_depth (tree_of plan.now)) out.new) }
    ensures room { values.new.capacity ≡ values.old.capacity }
{
    plan.facts();
    clear(plan.depth(), out);
    step_group(&plan.whole(), node, heard, values, out);
}
