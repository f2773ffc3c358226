ghost use Rattle.std.specs.Prelude.{◌≡◌, ◌≤◌, IfOk};
ghost use Rattle.machine_runner.specs.Hearing.{HasRoom};
ghost use Rattle.trace.specs.HalvingDesks.{IsDeskFor};

use crate::rooms::ValueRoom;
use halving_plan::HalvingMachine;
use machine_runner::Runner;
use machines::Machine;
use std::alloc::Global;
use sync_types::{NoMemory, NodeState};

/// What a trace needs besides its runner, made once.
#[derive(Drop)]
pub struct HalvingBuffers {
    /// The states of all nodes.
    pub config: Vec<NodeState>,
    /// What a node hears of all nodes.
    pub heard: Vec<NodeState>,
    /// The room for values that are counted.
    pub room: ValueRoom,
}

/// Room for a state of each node of a runner.
fn room_for(alloc: Global, runner: &Runner<'_, HalvingMachine>) -> Result<Vec<NodeState>, NoMemory>
    ensures { IfOk result (λ states. HasRoom runner.now.script states.items) }
{
    runner.facts();
    let depth = runner.machine().depth();
    let states = NodeState::zeros(alloc, runner.nodes(), depth)?;
    Ok(states)
}

impl HalvingBuffers {
    /// Room for traces of the run that a runner plays. It takes all the memory that a trace needs.
    pub fn new(
        alloc: Global,
        runner: &Runner<'_, HalvingMachine>,
    ) -> Result<HalvingBuffers, NoMemory>
        ensures { IfOk result (IsDeskFor runner.now.script) }
    {
        runner.facts();
        let config = room_for(alloc, runner)?;
        let heard = room_for(alloc, runner)?;
        let room = ValueRoom::new(alloc)?;
        Ok(HalvingBuffers {
            config,
            heard,
            room,
        })
    }
}
