ghost use Rattle.std.specs.Prelude.{◌≡◌, ◌≤◌, IfOk};
ghost use Rattle.construction.specs.Plans.{plan_depth};
ghost use Rattle.plan_numbers.specs.Numbers.{level_numbers};
ghost use Rattle.trace.specs.Desks.{HasRoom, IsMade};

use crate::rooms::VoteRoom;
use plan_numbers::{LevelNums, Plan};
use std::alloc::Global;
use sync_types::{NoMemory, NodeState};

/// What a trace needs besides its runner, made once.
#[derive(Drop)]
pub struct TraceBuffers {
    /// The numbers of the plan's levels, the lowest first.
    pub levels: Vec<LevelNums>,
    /// The states of all nodes.
    pub config: Vec<NodeState>,
    /// What a node hears of all nodes.
    pub heard: Vec<NodeState>,
    /// The room for votes and counts.
    pub room: VoteRoom,
}

/// The numbers of a plan's levels, the lowest first.
fn levels_of(alloc: Global, plan: &Plan) -> Result<Vec<LevelNums>, NoMemory>
    ensures { IfOk result (λ levels. levels.items ≡ level_numbers plan.now) }
{
    let mut levels = Vec::with_capacity(alloc, plan.depth())?;
    for i in 0..plan.depth() {
        levels.push(*plan.level(i)).unwrap();
    }
    Ok(levels)
}

/// So many states of that depth.
fn states_of(alloc: Global, nodes: u32, depth: usize) -> Result<Vec<NodeState>, NoMemory>
    ensures { IfOk result (λ states. HasRoom nodes depth states.items) }
{
    let states = NodeState::zeros(alloc, nodes, depth)?;
    Ok(states)
}

impl TraceBuffers {
    /// Room for traces of a plan's runs, whose states have so many registers. It takes all the
    /// memory that a trace needs.
    pub fn new(alloc: Global, plan: &Plan, depth: usize) -> Result<TraceBuffers, NoMemory>
        requires { plan_depth plan.now ≤ depth }
        ensures { IfOk result (IsMade plan.now depth) }
    {
        plan.facts();
        let levels = levels_of(alloc, plan)?;
        let nodes = plan.nodes();
        let config = states_of(alloc, nodes, depth)?;
        let heard = states_of(alloc, nodes, depth)?;
        let room = VoteRoom::new(alloc)?;
        Ok(TraceBuffers {
            levels,
            config,
            heard,
            room,
        })
    }
}
